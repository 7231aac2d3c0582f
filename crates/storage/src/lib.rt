// Files by their names: norfs's storage above its objects and blocks, as far as it reads.
//
// A file is a metadata object in a Metadata block. Its payload has the hash of the file's path, where the path's bytes are, and where the
// file's data objects are, in order. The hash is the caller's. Objects are looked at in one order, block by block and then by offset.
//
// Always true: nothing is stored and no power is needed; a refused read leaves the whole buffer as it was.
#![tactic(auto)]

pub mod file;
pub mod lookup;
pub mod names;
pub mod visit;
