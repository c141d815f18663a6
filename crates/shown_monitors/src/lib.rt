// Digital values and the monitors of a run (document 02, E14): definitions and theorems alone, in specs/ and proofs/.

#![tactic(auto)]
