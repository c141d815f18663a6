// A table of term words, and eight slots in a number.
#![tactic(auto)]

pub mod slots;
pub mod words;
