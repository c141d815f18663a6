// The machine that the code runs, and that its runs are the defined runs. Definitions and theorems only, in specs/ and proofs/.

#![tactic(auto)]
