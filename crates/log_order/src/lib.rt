// Pairs, chains and unordered accesses, on the log alone. Definitions and theorems only, in specs/ and proofs/.

#![tactic(auto)]
