// What a tool answers: a value, or a refusal. Definitions only, in specs/.
#![tactic(auto)]
