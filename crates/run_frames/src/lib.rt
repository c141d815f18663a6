// What refocusing goes over: frames, the redexes that move next, where refocusing stands, and what a frame does with the value of its operand.
#![tactic(auto)]

pub mod frame;
pub mod redex;
pub mod refocusing;
