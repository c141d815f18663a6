// The tags of terms, as numbers: expressions, conditions, lists, and expressions again.
pub const NULL: usize = 0;

pub const VARIABLE: usize = 1;

pub const NEW: usize = 2;

pub const READ: usize = 3;

pub const WRITE: usize = 4;

pub const LET: usize = 5;

pub const IF: usize = 6;

pub const WHILE: usize = 7;

pub const CALL: usize = 8;

pub const FORK: usize = 9;

pub const JOIN: usize = 10;

pub const SYNCH: usize = 11;

pub const TRUE: usize = 12;

pub const NOT: usize = 13;

pub const AND: usize = 14;

pub const EQUAL: usize = 15;

pub const LIST: usize = 16;

pub const LIST_END: usize = 17;

pub const WAIT: usize = 18;

pub const NOTIFY: usize = 19;

pub const NOTIFY_ALL: usize = 20;
