// The second pass in one block: what a power cut left unfinished and alone is erased.
ghost use Rattle.std.specs.Prelude.{◌≡◌, length};
ghost use Rattle.medium.specs.Geometry.{check_of};
ghost use Rattle.medium.specs.Operation.{run, ended};
ghost use Rattle.medium.specs.Beside.{both};
ghost use Rattle.medium.specs.Refusal.{answer_of};
ghost use Rattle.objects.specs.Listing.{list_from, listing};
ghost use Rattle.collector.specs.Table.{HasRecord};
ghost use Rattle.collector.specs.Passes.{last_in, unfinished_in, erase_invalid_finished_block};

use crate::erasing;
use crate::sweep::Pass;
use blocks::record::BlockInfo;
use medium::fuse::{Fuse, Stored};
use medium::geometry::Geometry;
use medium::refusal::Refusal;
use objects::iterator::{Next, ObjectIterator};
use objects::state::ObjectState;

// Behind an unfinished object there must be nothing.
fn find_last(g: Geometry, image: &[u8], j: ObjectIterator) -> Result<bool, Refusal>
    requires { check_of g (length image.now) ≡ 0 }
    ensures { answer_of result ≡ last_in (list_from g.size g j image.now) }
{
    let n = j.next(g, image)?;
    match n {
        Next::Object(_, _) => Err(Refusal::FsCorrupted),
        Next::Free | Next::End => Ok(true),
    }
}

// Whether the first object that is not deleted is an unfinished one, and the last.
fn find_unfinished(g: Geometry, image: &[u8], b: u32) -> Result<bool, Refusal>
    requires { check_of g (length image.now) ≡ 0 }
    ensures { answer_of result ≡ unfinished_in (listing g b image.now) }
{
    let mut i = ObjectIterator::new(g, b);
    while let Next::Object(h, j) = i.next(g, image)? {
        if h.state.is(ObjectState::Allocated) {
            return find_last(g, image, j);
        }
        if !h.state.is(ObjectState::Deleted) {
            return Ok(false);
        }
        i = j;
    }
    Ok(false)
}

// Formatted where nothing can be allocated and an unfinished object is all there is.
pub(crate) fn erase_invalid_finished_block(
    g: Geometry,
    image: &mut [u8],
    table: &mut [u32],
    f: Fuse,
    b: u32,
    info: BlockInfo,
) -> Stored
    requires has_record { HasRecord table.old b }
    requires image_value { check_of g (length image.old) ≡ 0 }
    ensures { ended result (both image.new table.new) ≡ run f (erase_invalid_finished_block g b info) (both image.old table.old) }
{
    if info.allow_alloc {
        return Ok(f);
    }
    let found = f.beside(find_unfinished(g, image, b))?;
    if !found {
        return Ok(f);
    }
    erasing::erase(g, image, table, f, b, info)
}

#[derive(Clone, Copy, Debug, PartialEq, Eq)]
pub(crate) struct EraseInvalidFinishedBlocks;

impl Pass for EraseInvalidFinishedBlocks {
    ghost step = { erase_invalid_finished_block };

    fn step(
        self,
        g: Geometry,
        image: &mut [u8],
        table: &mut [u32],
        f: Fuse,
        b: u32,
        info: BlockInfo,
    ) -> Stored {
        erase_invalid_finished_block(g, image, table, f, b, info)
    }
}
