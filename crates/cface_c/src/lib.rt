// The archive libcface.a: each function of crates/cface with its contract. A crate is a library, on which others stand and which exports
// nothing, or a static library, whose functions C calls: so this one hands each call on.
// Made by tools/cface.
#![tactic(auto)]

mod header_calls;
mod info_calls;
mod iterator_calls;
mod location_calls;
mod medium_calls;
mod metadata_calls;
mod moving_calls;
mod reader_calls;
mod writer_calls;
