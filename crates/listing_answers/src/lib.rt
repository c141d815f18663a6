// What the entries `first_interleaving` and `next_interleaving` answer (document 02, E11), by the definitions alone: what refuses, and in which order, the
// answers, and the area afterwards. specs/ and proofs/.

#![tactic(auto)]
