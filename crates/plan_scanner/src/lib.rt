// What the tokens of a text are made of, byte by byte.
#![tactic(auto)]

pub mod classes; // classes.rt: what is to be known of a byte
pub mod extents; // extents.rt: where comments and names end
pub mod names; // names.rt: which token a name is
