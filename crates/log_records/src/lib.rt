// The log's records: their kinds as numbers. Packing, unpacking, and refusals 11 and 12 are definitions and theorems, in specs/ and proofs/.
#![tactic(auto)]

pub mod kind; // kind.rt
