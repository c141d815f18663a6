// The codes of the tokens. A number, 0 to 31, is its own code.
// v0; the other slots follow.
pub const VARIABLE: usize = 32;

pub const VERSION: usize = 40;

pub const VOLATILE: usize = 41;

pub const PROCEDURE: usize = 42;

pub const IN: usize = 43;

pub const THEN: usize = 44;

pub const ELSE: usize = 45;

pub const DO: usize = 46;

pub const ALL: usize = 47;

pub const AND: usize = 48;

pub const TRUE: usize = 49;

pub const NOT: usize = 50;

pub const NULL: usize = 51;

pub const NEW: usize = 52;

pub const LET: usize = 53;

pub const IF: usize = 54;

pub const WHILE: usize = 55;

pub const CALL: usize = 56;

pub const FORK: usize = 57;

pub const JOIN: usize = 58;

pub const SYNCH: usize = 59;

pub const WAIT: usize = 60;

pub const NOTIFY: usize = 61;

pub const OPENING: usize = 62; // (

pub const CLOSING: usize = 63; // )

pub const COMMA: usize = 64; // ,

pub const DOT: usize = 65; // .

pub const EQUALS: usize = 66; // =

pub const BECOMES: usize = 67; // :=

pub const DASH: usize = 68; // -

// Where the text ends.
pub const END: usize = 69;

// What is no token.
pub const UNKNOWN: usize = 70;
