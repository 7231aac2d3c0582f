// The C interface of batches, beside crates/cface. include/stumpchoir.h has the same function for people.
//
// What is said in crates/cface of numbers, fuses and refusals holds here, but that the number of records done goes out in every case.
// tools/cface makes the function, its contract and its proof from the same table; written by hand is what it hands out by: batches.
#![tactic(auto)]

pub mod batch_calls;
mod batches;
