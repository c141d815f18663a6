// The kinds of records, as numbers; NONE is no record's.
pub const NONE: usize = 0;

pub const NEW: usize = 1;

pub const READ: usize = 2;

pub const WRITE: usize = 3;

pub const VOLATILE_READ: usize = 4;

pub const VOLATILE_WRITE: usize = 5;

pub const ACQUIRE: usize = 6;

pub const RELEASE: usize = 7;

pub const FORK: usize = 8;

pub const JOIN: usize = 9;

pub const LACKS_READ: usize = 10;

pub const LACKS_WRITE: usize = 11;
