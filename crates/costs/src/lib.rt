// What the terms of a plan cost, and how many moves it can need. Definitions and theorems only, in specs/ and proofs/.

#![tactic(auto)]
