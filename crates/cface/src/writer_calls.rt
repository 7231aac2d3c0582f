// Writers for C. A writer that came in is as it was after a refusal, and spent after 8.
// Made by tools/cface.
ghost use Rattle.std.specs.Prelude.{◌≡◌};
ghost use Rattle.medium.specs.Operation.{run};
ghost use Rattle.objects.specs.Types.{object_type_of};
ghost use Rattle.writer.specs.Writer.{allocate, space_of, size_of_payload, size_of_object, write_some, finalize, delete};
ghost use Rattle.cface.specs.Writers.{writer_numbers, writer_of, spent_after};
ghost use Rattle.crossing.specs.Crossing.{crossed_with, crossing_with, fuse_of, given, geometry_in, told, telling, plain, asked};
ghost use Rattle.crossing.specs.Values.{located};

use crate::writers;
use crossing::{call, hand};
use objects::location::ObjectLocation;
use objects::types::ObjectType;
use writer::writer::ObjectWriter;

// Stores the type (8F, 8E or 8D, else 4) of a new object, over Free or over Allocated of the same type: its writer. Under the strict mark
// the second is 10, and the first where its unit is programmed.
#[unsafe(no_mangle)]
pub extern "C" fn stumpchoir_writer_allocate(
    geometry: &[u32; 6],
    image: &mut [u8],
    fused: bool,
    units: &mut u32,
    block: u32,
    offset: u32,
    kind: u8,
    writer: &mut [u32; 12],
) -> u8
    ensures { crossed_with result units.new image.new writer.new ≡ crossing_with writer_numbers units.old writer.old (run (fuse_of fused units.old) (given (geometry_in geometry.now) (object_type_of kind) (λ g t. allocate g (located block offset) t)) image.old) }
{
    let g = call::geometry(geometry);
    let t = match ObjectType::try_from(kind as u32) {
        Ok(t) => t,
        Err(e) => return call::refusal(g, image.len(), e.number()),
    };
    let at = ObjectLocation {
        block: block,
        offset: offset,
    };
    let f = call::fuse_of(fused, units);
    let a = ObjectWriter::allocate(g, image, f, at, t);
    writers::hand_out(a, units, writer)
}

// The payload bytes that still fit; 9 where the writer stands past the end of its block.
#[unsafe(no_mangle)]
pub extern "C" fn stumpchoir_writer_space(
    geometry: &[u32; 6],
    writer: &[u32; 12],
    space: &mut u64,
) -> u8
    ensures { told result space.new ≡ telling plain space.old (asked (geometry_in geometry.now) (writer_of writer.now) (λ g w. space_of g w)) }
{
    let g = call::geometry(geometry);
    let w = match writers::writer_of(writer) {
        Ok(w) => w,
        Err(e) => return call::refusal_alone(g, e.number()),
    };
    let a = w.space(g);
    hand::hand(a, space)
}

// The payload bytes taken so far, stored or held.
#[unsafe(no_mangle)]
pub extern "C" fn stumpchoir_writer_payload_size(
    geometry: &[u32; 6],
    writer: &[u32; 12],
    payload_size: &mut u64,
) -> u8
    ensures { told result payload_size.new ≡ telling plain payload_size.old (asked (geometry_in geometry.now) (writer_of writer.now) (λ g w. size_of_payload g w)) }
{
    let g = call::geometry(geometry);
    let w = match writers::writer_of(writer) {
        Ok(w) => w,
        Err(e) => return call::refusal_alone(g, e.number()),
    };
    let a = w.payload_size(g);
    hand::hand(a, payload_size)
}

// Those and the header.
#[unsafe(no_mangle)]
pub extern "C" fn stumpchoir_writer_total_size(
    geometry: &[u32; 6],
    writer: &[u32; 12],
    total_size: &mut u64,
) -> u8
    ensures { told result total_size.new ≡ telling plain total_size.old (asked (geometry_in geometry.now) (writer_of writer.now) (λ g w. size_of_object g w)) }
{
    let g = call::geometry(geometry);
    let w = match writers::writer_of(writer) {
        Ok(w) => w,
        Err(e) => return call::refusal_alone(g, e.number()),
    };
    let a = w.total_size(g);
    hand::hand(a, total_size)
}

// Takes payload bytes: whole words are stored, less than a word is held. 5 where they are more than the space. The word that held bytes
// fill is a store of its own: 10 of the words behind it leaves it there.
#[unsafe(no_mangle)]
pub extern "C" fn stumpchoir_writer_write(
    geometry: &[u32; 6],
    image: &mut [u8],
    fused: bool,
    units: &mut u32,
    writer: &mut [u32; 12],
    src: &[u8],
) -> u8
    ensures { crossed_with result units.new image.new writer.new ≡ spent_after (crossing_with writer_numbers units.old writer.old (run (fuse_of fused units.old) (given (geometry_in geometry.now) (writer_of writer.old) (λ g w. write_some g w src.now)) image.old)) }
{
    let g = call::geometry(geometry);
    let w = match writers::writer_of(writer) {
        Ok(w) => w,
        Err(e) => return call::refusal(g, image.len(), e.number()),
    };
    let f = call::fuse_of(fused, units);
    let a = w.write(g, image, f, src);
    writers::hand_back(a, units, writer)
}

// Ends the object: what is held, the size, and the mark of a Finalized object; each store can be 10.
#[unsafe(no_mangle)]
pub extern "C" fn stumpchoir_writer_finalize(
    geometry: &[u32; 6],
    image: &mut [u8],
    fused: bool,
    units: &mut u32,
    writer: &mut [u32; 12],
) -> u8
    ensures { crossed_with result units.new image.new writer.new ≡ spent_after (crossing_with writer_numbers units.old writer.old (run (fuse_of fused units.old) (given (geometry_in geometry.now) (writer_of writer.old) (λ g w. finalize g w)) image.old)) }
{
    let g = call::geometry(geometry);
    let w = match writers::writer_of(writer) {
        Ok(w) => w,
        Err(e) => return call::refusal(g, image.len(), e.number()),
    };
    let f = call::fuse_of(fused, units);
    let a = w.finalize(g, image, f);
    writers::hand_back(a, units, writer)
}

// Deletes the object: one that is not Finalized gets its size first; of one that is Free or Deleted nothing is stored. Each store can be
// 10.
#[unsafe(no_mangle)]
pub extern "C" fn stumpchoir_writer_delete(
    geometry: &[u32; 6],
    image: &mut [u8],
    fused: bool,
    units: &mut u32,
    writer: &mut [u32; 12],
) -> u8
    ensures { crossed_with result units.new image.new writer.new ≡ spent_after (crossing_with writer_numbers units.old writer.old (run (fuse_of fused units.old) (given (geometry_in geometry.now) (writer_of writer.old) (λ g w. delete g w)) image.old)) }
{
    let g = call::geometry(geometry);
    let w = match writers::writer_of(writer) {
        Ok(w) => w,
        Err(e) => return call::refusal(g, image.len(), e.number()),
    };
    let f = call::fuse_of(fused, units);
    let a = w.delete(g, image, f);
    writers::hand_back(a, units, writer)
}
