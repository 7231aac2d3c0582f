// Scanning a block: its record, read off its bytes.
ghost use Rattle.std.specs.Prelude.{◌≡◌, ◌+◌, ◌-◌, ◌≤◌, length, leb, false};
ghost use Rattle.medium.specs.Granularity.{pick};
ghost use Rattle.medium.specs.Geometry.{check_of};
ghost use Rattle.medium.specs.Operation.{done, refused};
ghost use Rattle.medium.specs.Refusal.{answer_of};
ghost use Rattle.objects.specs.Info.{total_of};
ghost use Rattle.objects.specs.Listing.{listing};
ghost use Rattle.blocks.specs.Scan.{written_in, scan_unknown, is_freeable, listed, scan_block, calculate_freeable_space};

use crate::header::{BlockHeader, BlockHeaderKind};
use crate::record::BlockInfo;
use medium::geometry::Geometry;
use medium::granularity::Granularity;
use medium::refusal::Refusal;
use objects::header::ObjectHeader;
use objects::iterator::{Next, ObjectIterator};
use objects::state::ObjectState;

// The place behind the last byte that is not FF.
fn last_written(part: &[u8]) -> usize
    ensures { result ≡ written_in part.now }
{
    match part.iter().rposition(|b| *b != 0xFF) {
        Some(i) => i + 1,
        None => 0,
    }
}

fn scan_unknown(g: Geometry, image: &[u8], block: u32, h: BlockHeader) -> Result<BlockInfo, Refusal>
    ensures { answer_of result ≡ scan_unknown g block h image.now }
{
    let size = g.size as usize;
    medium::reach(g, image.len(), block, 0, size)?;
    let used = last_written(medium::lend(g, image, block, 0, size));
    Ok(BlockInfo {
        header: h,
        used_bytes: used as u32,
        allow_alloc: false,
    })
}

// No allocation behind a last object that is not finished.
fn list(g: Geometry, image: &[u8], block: u32, h: BlockHeader) -> Result<BlockInfo, Refusal>
    requires { check_of g (length image.now) ≡ 0 }
    ensures { answer_of result ≡ listed h false (listing g block image.now) }
{
    let mut i = ObjectIterator::new(g, block);
    let mut allocated = false;
    while let Next::Object(o, j) = i.next(g, image)? {
        allocated = o.state.is(ObjectState::Allocated);
        i = j;
    }
    Ok(BlockInfo {
        header: h,
        used_bytes: i.current_offset(),
        allow_alloc: !allocated,
    })
}

// What a mount needs to know of a block: its header, its used bytes, and whether objects may be allocated in it.
pub fn scan_block(g: Geometry, image: &[u8], block: u32) -> Result<BlockInfo, Refusal>
    ensures { answer_of result ≡ scan_block g block image.now }
{
    let h = BlockHeader::read(g, image, block)?;
    match h.kind {
        BlockHeaderKind::Empty => Err(Refusal::NotFormatted),
        BlockHeaderKind::Unknown => scan_unknown(g, image, block, h),
        BlockHeaderKind::Known(_) => list(g, image, block, h),
    }
}

// The total size of an object that is Allocated or Deleted, and 0 of one that is Finalized.
fn freeable(o: ObjectHeader, k: Granularity, s: u8) -> usize
    ensures value { result ≡ pick (is_freeable o) (total_of k s o) 0 }
    ensures upper_bound { result ≤ 4294967566 }
{
    if o.state.is(ObjectState::Allocated) || o.state.is(ObjectState::Deleted) {
        return objects::info::total(o, k, s);
    }
    0
}

// What is free behind a listing, and the n bytes that its objects free; 9 where it ran past the block.
fn sum(g: Geometry, i: ObjectIterator, n: usize) -> Result<usize, Refusal>
    requires { n ≤ 4294967295 }
    ensures { answer_of result ≡ pick (leb i.location.offset g.size) (done (g.size - i.location.offset + n)) (refused 9) }
{
    let last = i.current_offset();
    if g.size < last {
        return Err(Refusal::RustPanic);
    }
    Ok((g.size - last) as usize + n)
}

// How many bytes an erase of the block would give.
pub fn calculate_freeable_space(g: Geometry, image: &[u8], block: u32) -> Result<usize, Refusal>
    ensures { answer_of result ≡ calculate_freeable_space g block image.now }
{
    medium::geometry::check(g, image.len())?;
    let mut i = ObjectIterator::new(g, block);
    let mut deleted: usize = 0;
    while let Next::Object(o, j) = i.next(g, image)? {
        deleted += freeable(o, g.granularity, g.s);
        i = j;
    }
    sum(g, i, deleted)
}
