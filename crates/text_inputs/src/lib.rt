// Plans, schedules and numbers as a person gives them: what is text and what is packed, and what the digits of a text say.
#![tactic(auto)]

pub mod numerals; // numerals.rt: numbers
pub mod plans; // plans.rt: whether a plan is text
pub mod schedules; // schedules.rt: schedules as digits
