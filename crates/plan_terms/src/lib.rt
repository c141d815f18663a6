// The terms of a packed plan, one by one: check 4.
#![tactic(auto)]

pub mod term; // term.rt: the 40 bits of a term
pub mod table; // table.rt: check 4, and the terms loaded
