// The C interface of blocks, their records and the collector, beside crates/cface. include/stumpchoir.h has the same functions for people.
//
// What is said in crates/cface of numbers, fuses and refusals holds here. tools/cface makes the functions, their contracts and their proofs
// from the same table.
#![tactic(auto)]

pub mod block_calls;
pub mod collector_calls;
pub mod record_calls;
