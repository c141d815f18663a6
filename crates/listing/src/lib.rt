// All interleavings of a short plan (document 02, E11), by the definitions alone: specs/ and proofs/.

#![tactic(auto)]
