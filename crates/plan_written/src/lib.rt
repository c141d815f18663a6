// The one way to write a plan, on trees: definitions and proofs alone.

#![tactic(auto)]
