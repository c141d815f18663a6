// A plan's text, read: definitions and their laws alone.

#![tactic(auto)]
