// Objects written whole, copied and moved, for C.
// Made by tools/cface.
ghost use Rattle.std.specs.Prelude.{◌≡◌};
ghost use Rattle.medium.specs.Operation.{run};
ghost use Rattle.moving.specs.Moving.{copy_object, move_object};
ghost use Rattle.objects.specs.Types.{object_type_of};
ghost use Rattle.writer.specs.Writer.{write_to};
ghost use Rattle.crossing.specs.Crossing.{crossed_with, crossing_with, plain, fuse_of, given, geometry_in};
ghost use Rattle.crossing.specs.Values.{located, header_numbers, header_of};

use crate::writers;
use crossing::call::Told;
use crossing::{call, outs, values};
use objects::location::ObjectLocation;
use objects::types::ObjectType;
use writer::writer::ObjectWriter;

// An object of a type (8F, 8E or 8D, else 4), written whole: *total_size is its header and payload together. The type is stored first,
// and 5, where the payload does not fit, leaves it there; 10 of a later store leaves those before it.
#[unsafe(no_mangle)]
pub extern "C" fn stumpchoir_write_to(
    geometry: &[u32; 6],
    image: &mut [u8],
    fused: bool,
    units: &mut u32,
    block: u32,
    offset: u32,
    kind: u8,
    src: &[u8],
    total_size: &mut u64,
) -> u8
    ensures { crossed_with result units.new image.new total_size.new ≡ crossing_with plain units.old total_size.old (run (fuse_of fused units.old) (given (geometry_in geometry.now) (object_type_of kind) (λ g t. write_to g (located block offset) t src.now)) image.old) }
{
    let g = call::geometry(geometry);
    let t = match ObjectType::try_from(kind as u32) {
        Ok(t) => t,
        Err(e) => return call::refusal(g, image.len(), e.number()),
    };
    let at = ObjectLocation {
        block: block,
        offset: offset,
    };
    let f = call::fuse_of(fused, units);
    let a = ObjectWriter::write_to(g, image, f, at, t, src);
    writers::hand_total(a, units, total_size)
}

// The Finalized object that a header names, anew at another place: its header there. The type is the one that the header says. 10 leaves
// what was stored of it.
#[unsafe(no_mangle)]
pub extern "C" fn stumpchoir_copy_object(
    geometry: &[u32; 6],
    image: &mut [u8],
    fused: bool,
    units: &mut u32,
    header: &[u32; 5],
    block: u32,
    offset: u32,
    copy: &mut [u32; 5],
) -> u8
    ensures { crossed_with result units.new image.new copy.new ≡ crossing_with header_numbers units.old copy.old (run (fuse_of fused units.old) (given (geometry_in geometry.now) (header_of header.now) (λ g h. copy_object g h (located block offset))) image.old) }
{
    let g = call::geometry(geometry);
    let h = match values::header_of(header) {
        Ok(h) => h,
        Err(e) => return call::refusal(g, image.len(), e.number()),
    };
    let to = ObjectLocation {
        block: block,
        offset: offset,
    };
    let f = call::fuse_of(fused, units);
    let a = moving::copy_object(g, image, f, h, to);
    outs::hand_back(a.map_err(Told::from), units, copy)
}

// The same, and then the object is deleted where it was; 10 of its delete mark leaves both, the copy finished.
#[unsafe(no_mangle)]
pub extern "C" fn stumpchoir_move_object(
    geometry: &[u32; 6],
    image: &mut [u8],
    fused: bool,
    units: &mut u32,
    header: &[u32; 5],
    block: u32,
    offset: u32,
    copy: &mut [u32; 5],
) -> u8
    ensures { crossed_with result units.new image.new copy.new ≡ crossing_with header_numbers units.old copy.old (run (fuse_of fused units.old) (given (geometry_in geometry.now) (header_of header.now) (λ g h. move_object g h (located block offset))) image.old) }
{
    let g = call::geometry(geometry);
    let h = match values::header_of(header) {
        Ok(h) => h,
        Err(e) => return call::refusal(g, image.len(), e.number()),
    };
    let to = ObjectLocation {
        block: block,
        offset: offset,
    };
    let f = call::fuse_of(fused, units);
    let a = moving::move_object(g, image, f, h, to);
    outs::hand_back(a.map_err(Told::from), units, copy)
}
