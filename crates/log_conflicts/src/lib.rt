// What the judge answers, on the log alone: definitions in specs/, the answer by clocks in proofs/.

#![tactic(auto)]
