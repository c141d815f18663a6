// The redexes that move next, as numbers: a thread's redex is copied at every pick, and a whole number copies well.
// RUN, RUN_CONDITION, VAL, TRUTH, BODY and AGAIN are moves that only go on elsewhere; no accepted plan comes to NO_RULE.
pub const DONE: usize = 0;

pub const NO_RULE: usize = 1;

pub const RUN: usize = 2;

pub const RUN_CONDITION: usize = 3;

pub const VAL: usize = 4;

pub const TRUTH: usize = 5;

pub const WHILE: usize = 6;

pub const BODY: usize = 7;

pub const AGAIN: usize = 8;

pub const NEW: usize = 9;

pub const READ: usize = 10;

pub const WRITE: usize = 11;

pub const FORK: usize = 12;

pub const JOIN: usize = 13;

pub const SYNCH: usize = 14;

pub const HOLD: usize = 15;

pub const SIGNAL: usize = 16;

pub const WAITING: usize = 17;
