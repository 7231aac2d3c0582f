// The archive libcface_sweep.a: each function of crates/cface_sweep with its contract. A crate is a library, on which others stand and which exports
// nothing, or a static library, whose functions C calls: so this one hands each call on.
// Made by tools/cface.
#![tactic(auto)]

mod sweep_calls;
