// The keys that a thread knows, in the words of the running code (document 02, E9). Definitions and theorems only, in specs/ and proofs/.

#![tactic(auto)]
