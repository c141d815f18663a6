// The packed plan, its trees, refusals 1 to 7. Definitions and theorems only, in specs/ and proofs/.

#![tactic(auto)]
