// Objects: what stands in a block after its header, one behind the other.
//
// An object has a type, a state, a payload size and a payload. Its state only goes forward: Free (nothing there), Allocated (the type is
// stored, the rest may be incomplete), Finalized (size and payload are complete), Deleted (the size still says how far it reaches).
// Each step is one unit more, so a power cut leaves the state before the step or the state after it, and never a third. One step leads to
// no state: on chips with words, deleting an Allocated object stores the second of its marks alone, and FF 00 is refused with 2.
//
// A header is read from the bytes each time; a header value that a caller hands in says only where the object is and what was
// read there before. Listing goes from object to object by their sizes, and ends at the first free place, at the block's end, or at bytes
// that are no header. An unfinished object whose size is not set yet is stepped over by its header alone.
//
// The writer, and with it copying and moving, is the crate `writer`.
#![tactic(auto)]

pub mod header;
pub mod info;
pub mod iterator;
pub mod location;
pub mod metadata;
pub mod payload;
pub mod reader;
pub mod state;
pub mod types;
