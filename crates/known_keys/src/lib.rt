// The keys that a thread knows, by the log alone (document 02, E9). Definitions and theorems only, in specs/ and proofs/.

#![tactic(auto)]
