// The C interface of the medium and of objects: what a C or Rust program calls; that of blocks and the collector is crates/cface_blocks.
// include/stumpchoir.h has the functions of both for people.
//
// A geometry comes in as six numbers, a fuse as a flag and a count of units. Every function answers one of 01's numbers, and none
// has a condition that its caller must keep. A refused call leaves every out value as it was; only a writer that goes in is spent by 8.
//
// Always true: 6 comes first, also for numbers that no geometry has; without a fuse the units are neither read nor written.
//
// tools/cface makes the functions, their contracts and their proofs from one table; written by hand is what they hand out by: cursors,
// filled, writers.
#![tactic(auto)]

mod cursors;
mod filled;
pub mod header_calls;
pub mod info_calls;
pub mod iterator_calls;
pub mod location_calls;
pub mod medium_calls;
pub mod metadata_calls;
pub mod moving_calls;
pub mod reader_calls;
pub mod writer_calls;
mod writers;
