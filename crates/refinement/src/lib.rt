// The code's machine follows the abstract machine. No code: see proofs/.

#![tactic(auto)]
