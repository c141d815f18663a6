// From a race, the two accesses side by side (document 02, E10): the definitions and theorems behind the entry `witness`. Definitions and theorems only, in
// specs/ and proofs/.

#![tactic(auto)]
