// The C interface of the sweep, beside crates/cface. include/stumpchoir.h has the same function for people.
//
// What is said in crates/cface of numbers, fuses and refusals holds here, but that both numbers of objects deleted go out in every case.
// tools/cface makes the function, its contract and its proof from the same table; written by hand is what it hands out by: sweeps.
#![tactic(auto)]

pub mod sweep_calls;
mod sweeps;
