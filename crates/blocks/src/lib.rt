// Blocks: the header of a block, what kind of block it says, and how a block is formatted and scanned.
//
// A block starts with a header: two fixed bytes, a byte that says how the chip is laid out, a type (Metadata, Data, or Undefined for a block
// that is formatted and not yet used), and how often the block was erased. The kind of a block is read off these bytes, whatever the erase
// count is: Known of a type, Empty (all FF), or Unknown. Behind the header stand objects, one behind the other.
//
// Formatting erases a block and gives it the header of an Undefined one, with one erase more; it stores only what that takes, and
// refuses with 2 a known block whose count is at its end. A scan makes a block's record: kind, erase count, used bytes, and whether new objects
// may be allocated behind the last one.
//
// Always true: a block that was formatted with power scans as Undefined, with only its header used (specs/Formatted.antt).
#![tactic(auto)]

pub mod format;
pub mod header;
pub mod record;
pub mod scan;
