// The first pass in one block: objects that a power cut left unfinished are deleted.
ghost use Rattle.std.specs.Prelude.{◌≡◌, length};
ghost use Rattle.medium.specs.Geometry.{check_of};
ghost use Rattle.medium.specs.Operation.{run, ended, ended_with};
ghost use Rattle.medium.specs.Beside.{both};
ghost use Rattle.objects.specs.Header.{payload_size_of};
ghost use Rattle.objects.specs.Listing.{start_of};
ghost use Rattle.collector.specs.Table.{HasRecord};
ghost use Rattle.collector.specs.Passes.{delete_object, repair_by, repairing, visit_one, deleting, delete_invalid_objects_in_block};

use crate::sweep::Pass;
use crate::table;
use blocks::header::BlockHeaderKind;
use blocks::record::BlockInfo;
use medium::fuse::{Ended, Fuse, Stored};
use medium::geometry::Geometry;
use medium::refusal::Refusal;
use objects::header::ObjectHeader;
use objects::iterator::{Next, ObjectIterator};
use objects::state::ObjectState;

fn delete_object(g: Geometry, image: &mut [u8], f: Fuse, h: ObjectHeader) -> Ended<bool>
    ensures { ended_with result image.new ≡ run f (delete_object g h) image.old }
{
    let (_, left) = h.update_state(g, image, f, ObjectState::Deleted)?;
    Ok((true, left))
}

// Whether it was deleted. With n bytes of payload: an object whose size says the same is left, any other is deleted, with its size stored
// first where it is unset.
fn repair_by(g: Geometry, image: &mut [u8], f: Fuse, h: ObjectHeader, n: u32) -> Ended<bool>
    ensures { ended_with result image.new ≡ run f (repair_by g h n (payload_size_of g.s h)) image.old }
{
    if let Some(m) = h.payload_size(g.s) {
        if m == n {
            return Ok((false, f));
        }
        return delete_object(g, image, f, h);
    }
    let (sized, left) = h.set_payload_size(g, image, f, n)?;
    delete_object(g, image, left, sized)
}

// An unfinished object, by the used bytes of its block.
fn repair(g: Geometry, image: &mut [u8], f: Fuse, h: ObjectHeader, used: u32) -> Ended<bool>
    ensures { ended_with result image.new ≡ run f (repairing g h used) image.old }
{
    let from = (h.location.offset as usize) + g.granularity.object_header(g.s);
    if (used as usize) < from {
        return f.beside(Err(Refusal::RustPanic));
    }
    repair_by(g, image, f, h, ((used as usize) - from) as u32)
}

// Whether the listing goes on behind an object: an unfinished one is repaired, and the allow mark set where it was deleted.
fn visit(
    g: Geometry,
    image: &mut [u8],
    table: &mut [u32],
    f: Fuse,
    b: u32,
    used: u32,
    h: ObjectHeader,
) -> Ended<bool>
    requires { HasRecord table.old b }
    ensures { ended_with result (both image.new table.new) ≡ run f (visit_one g b used h) (both image.old table.old) }
{
    if !h.state.is(ObjectState::Allocated) {
        return Ok((true, f));
    }
    let (deleted, left) = repair(g, image, f, h, used)?;
    if deleted {
        table::allow(table, b);
    }
    Ok((deleted, left))
}

fn delete_from(
    g: Geometry,
    image: &mut [u8],
    table: &mut [u32],
    f: Fuse,
    b: u32,
    used: u32,
) -> Stored
    requires has_record { HasRecord table.old b }
    requires image_value { check_of g (length image.old) ≡ 0 }
    ensures { ended result (both image.new table.new) ≡ run f (deleting g.size g b used (start_of g b)) (both image.old table.old) }
{
    let mut i = ObjectIterator::new(g, b);
    let mut fuse = f;
    while let Next::Object(h, j) = fuse.beside(i.next(g, image))? {
        let (more, left) = visit(g, image, table, fuse, b, used, h)?;
        if !more {
            return Ok(left);
        }
        fuse = left;
        i = j;
    }
    Ok(fuse)
}

// By the kind in the record: 2 for an Unknown one, and nothing to do in an Empty one.
pub(crate) fn delete_invalid_objects_in_block(
    g: Geometry,
    image: &mut [u8],
    table: &mut [u32],
    f: Fuse,
    b: u32,
    info: BlockInfo,
) -> Stored
    requires has_record { HasRecord table.old b }
    requires image_value { check_of g (length image.old) ≡ 0 }
    ensures { ended result (both image.new table.new) ≡ run f (delete_invalid_objects_in_block g b info) (both image.old table.old) }
{
    match info.header.kind {
        BlockHeaderKind::Unknown => f.beside(Err(Refusal::FsCorrupted)),
        BlockHeaderKind::Empty => Ok(f),
        BlockHeaderKind::Known(_) => delete_from(g, image, table, f, b, info.used_bytes),
    }
}

#[derive(Clone, Copy, Debug, PartialEq, Eq)]
pub(crate) struct DeleteInvalidObjects;

impl Pass for DeleteInvalidObjects {
    ghost step = { delete_invalid_objects_in_block };

    fn step(
        self,
        g: Geometry,
        image: &mut [u8],
        table: &mut [u32],
        f: Fuse,
        b: u32,
        info: BlockInfo,
    ) -> Stored {
        delete_invalid_objects_in_block(g, image, table, f, b, info)
    }
}
