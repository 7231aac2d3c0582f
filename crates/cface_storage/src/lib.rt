// The C interface of files and their names, beside crates/cface. include/stumpchoir.h has the same functions for people.
//
// What is said in crates/cface of numbers and refusals holds here. tools/cface makes the functions, their contracts and their proofs from the
// same table; written by hand is what they hand out by: files and listed.
#![tactic(auto)]

mod files;
mod listed;
pub mod storage_calls;
