// The archive libcface_storage.a: each function of crates/cface_storage with its contract. A crate is a library, on which others stand and which exports
// nothing, or a static library, whose functions C calls: so this one hands each call on.
// Made by tools/cface.
#![tactic(auto)]

mod storage_calls;
