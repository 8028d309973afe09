// The states that a search has found, in lent bytes: a row to a state, and the next numbers.
// Rows are bytes at places, and no Vec of State: there is no heap, and C lends the work area as bytes.
#![tactic(auto)]

pub mod bytes;
pub mod next;
pub mod row;
