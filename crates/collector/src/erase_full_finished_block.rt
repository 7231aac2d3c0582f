// The third pass in one block: what is deleted altogether is erased.
ghost use Rattle.std.specs.Prelude.{◌≡◌, length};
ghost use Rattle.medium.specs.Geometry.{check_of};
ghost use Rattle.medium.specs.Operation.{run, ended};
ghost use Rattle.medium.specs.Beside.{both};
ghost use Rattle.medium.specs.Refusal.{answer_of};
ghost use Rattle.objects.specs.Listing.{listing};
ghost use Rattle.collector.specs.Table.{HasRecord};
ghost use Rattle.collector.specs.Passes.{deleted_in, erase_full_finished_block};

use crate::erasing;
use crate::sweep::Pass;
use blocks::record::BlockInfo;
use medium::fuse::{Fuse, Stored};
use medium::geometry::Geometry;
use medium::refusal::Refusal;
use objects::iterator::{Next, ObjectIterator};
use objects::state::ObjectState;

// Whether all objects are deleted.
fn find_deleted(g: Geometry, image: &[u8], b: u32) -> Result<bool, Refusal>
    requires { check_of g (length image.now) ≡ 0 }
    ensures { answer_of result ≡ deleted_in (listing g b image.now) }
{
    let mut i = ObjectIterator::new(g, b);
    while let Next::Object(h, j) = i.next(g, image)? {
        let is_left = !h.state.is(ObjectState::Deleted);
        if is_left {
            return Ok(false);
        }
        i = j;
    }
    Ok(true)
}

// Formatted where all objects are deleted. A block that is used up to its last header is passed over.
pub(crate) fn erase_full_finished_block(
    g: Geometry,
    image: &mut [u8],
    table: &mut [u32],
    f: Fuse,
    b: u32,
    info: BlockInfo,
) -> Stored
    requires has_record { HasRecord table.old b }
    requires image_value { check_of g (length image.old) ≡ 0 }
    ensures { ended result (both image.new table.new) ≡ run f (erase_full_finished_block g b info) (both image.old table.old) }
{
    let k = g.granularity;
    if (g.size as usize) - k.object_header(g.s) <= (info.used_bytes as usize) {
        return Ok(f);
    }
    let found = f.beside(find_deleted(g, image, b))?;
    if !found {
        return Ok(f);
    }
    erasing::erase(g, image, table, f, b, info)
}

#[derive(Clone, Copy, Debug, PartialEq, Eq)]
pub(crate) struct EraseFullFinishedBlocks;

impl Pass for EraseFullFinishedBlocks {
    ghost step = { erase_full_finished_block };

    fn step(
        self,
        g: Geometry,
        image: &mut [u8],
        table: &mut [u32],
        f: Fuse,
        b: u32,
        info: BlockInfo,
    ) -> Stored {
        erase_full_finished_block(g, image, table, f, b, info)
    }
}
