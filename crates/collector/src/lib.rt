// The collector: three passes over the blocks of a chip and over the table of their records.
//
// The first deletes objects that a power cut left unfinished. The second formats blocks in which nothing can be allocated and whose only
// object that is not deleted is an unfinished one. The third formats blocks with deleted objects alone. The table is lent, a record of
// numbers a block; each block's record is taken out by value, and what changes is stored back.
//
// Always true: the whole table is tested before any step. A refused call, and one that lost power, leaves image and table with exactly the
// units and fields that were stored before it.
//
// A file for what each pass does to one block, named as in the Rust; what the two erasing passes share; and the pass over all blocks.
#![tactic(auto)]

mod delete_invalid_objects_in_block;
mod erase_full_finished_block;
mod erase_invalid_finished_block;
mod erasing;
mod sweep;
mod table;

ghost use Rattle.std.specs.Prelude.{◌≡◌};
ghost use Rattle.medium.specs.Operation.{ended};
ghost use Rattle.medium.specs.Beside.{both};
ghost use Rattle.collector.specs.Passes.{delete_invalid_objects, erase_invalid_finished_blocks, erase_full_finished_blocks, collect};

use crate::delete_invalid_objects_in_block::DeleteInvalidObjects;
use crate::erase_full_finished_block::EraseFullFinishedBlocks;
use crate::erase_invalid_finished_block::EraseInvalidFinishedBlocks;
use medium::fuse::{Fuse, Stored};
use medium::geometry::Geometry;

// Deletes objects that a power cut left unfinished.
pub fn delete_invalid_objects(g: Geometry, image: &mut [u8], table: &mut [u32], f: Fuse) -> Stored
    ensures { ended result (both image.new table.new) ≡ Rattle.medium.specs.Operation.run f (delete_invalid_objects g) (both image.old table.old) }
{
    sweep::sweep(DeleteInvalidObjects, g, image, table, f)
}

// Formats blocks in which nothing can be allocated and an unfinished object is all that is not deleted.
pub fn erase_invalid_finished_blocks(
    g: Geometry,
    image: &mut [u8],
    table: &mut [u32],
    f: Fuse,
) -> Stored
    ensures { ended result (both image.new table.new) ≡ Rattle.medium.specs.Operation.run f (erase_invalid_finished_blocks g) (both image.old table.old) }
{
    sweep::sweep(EraseInvalidFinishedBlocks, g, image, table, f)
}

// Formats blocks in which all objects are deleted.
pub fn erase_full_finished_blocks(
    g: Geometry,
    image: &mut [u8],
    table: &mut [u32],
    f: Fuse,
) -> Stored
    ensures { ended result (both image.new table.new) ≡ Rattle.medium.specs.Operation.run f (erase_full_finished_blocks g) (both image.old table.old) }
{
    sweep::sweep(EraseFullFinishedBlocks, g, image, table, f)
}

// A collection: the three passes in order.
pub fn run(g: Geometry, image: &mut [u8], table: &mut [u32], f: Fuse) -> Stored
    ensures { ended result (both image.new table.new) ≡ Rattle.medium.specs.Operation.run f (collect g) (both image.old table.old) }
{
    let left = delete_invalid_objects(g, image, table, f)?;
    let rest = erase_invalid_finished_blocks(g, image, table, left)?;
    erase_full_finished_blocks(g, image, table, rest)
}
