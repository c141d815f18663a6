// Where the records of a log are.
#![tactic(auto)]

pub mod records; // records.rt: the kind, the thread and the place of a record
pub mod places; // places.rt: the numbers of the places that a log's records are at
