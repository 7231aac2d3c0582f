// The archive libcface_blocks.a: each function of crates/cface_blocks with its contract. A crate is a library, on which others stand and which exports
// nothing, or a static library, whose functions C calls: so this one hands each call on.
// Made by tools/cface.
#![tactic(auto)]

mod block_calls;
mod collector_calls;
mod record_calls;
