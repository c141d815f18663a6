// What a step of the parser sees and does, as numbers: definitions and their laws alone.

#![tactic(auto)]
