// A plan as text (docs/FORMAT.md): definitions and their laws, and the codes of the tokens by name.
#![tactic(auto)]

pub mod tokens; // tokens.rt
