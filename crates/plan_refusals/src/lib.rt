// What a check answers: nothing is wrong, or a refusal. Definitions and their laws only, in specs/ and proofs/.
#![tactic(auto)]
