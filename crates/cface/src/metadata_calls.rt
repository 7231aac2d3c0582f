// Metadata objects for C.
// Made by tools/cface.
ghost use Rattle.std.specs.Prelude.{◌≡◌, length};
ghost use Rattle.objects.specs.Metadata.{read_metadata, metadata_at, next_location};
ghost use Rattle.cface.specs.Objects.{next_location_out, reset_in};
ghost use Rattle.crossing.specs.Crossing.{told, telling, asked_in, geometry_in, two, telling_by, fitting};
ghost use Rattle.crossing.specs.Values.{metadata_numbers, header_of, located, metadata_of};

use crate::cursors;
use crossing::{call, values};
use objects::location::ObjectLocation;
use objects::metadata;

// Path hash and name location of an object that is known by its header.
#[unsafe(no_mangle)]
pub extern "C" fn stumpchoir_info_read_metadata(
    geometry: &[u32; 6],
    image: &[u8],
    header: &[u32; 5],
    metadata: &mut [u32; 9],
) -> u8
    ensures { told result metadata.new ≡ telling metadata_numbers metadata.old (asked_in (geometry_in geometry.now) (length image.now) (header_of header.now) (λ g h. read_metadata g h image.now)) }
{
    let g = call::geometry(geometry);
    let h = match values::header_of(header) {
        Ok(h) => h,
        Err(e) => return call::refusal(g, image.len(), e.number()),
    };
    let a = metadata::read(g, image, h);
    cursors::hand_metadata(a, metadata)
}

// The same of the object at a place; a Free place is 2.
#[unsafe(no_mangle)]
pub extern "C" fn stumpchoir_location_read_metadata(
    geometry: &[u32; 6],
    image: &[u8],
    block: u32,
    offset: u32,
    metadata: &mut [u32; 9],
) -> u8
    ensures { told result metadata.new ≡ telling metadata_numbers metadata.old (metadata_at (geometry_in geometry.now) (located block offset) image.now) }
{
    let g = call::geometry(geometry);
    let at = ObjectLocation {
        block: block,
        offset: offset,
    };
    let a = metadata::read_at(g, image, at);
    cursors::hand_metadata(a, metadata)
}

// The location of the next data object: *found is 1 with it, or 0 at the end of the list (then metadata and location stay).
#[unsafe(no_mangle)]
pub extern "C" fn stumpchoir_metadata_next_object_location(
    geometry: &[u32; 6],
    image: &[u8],
    metadata: &mut [u32; 9],
    found: &mut u32,
    location: &mut [u32; 2],
) -> u8
    ensures { told result (two metadata.new (two found.new location.new)) ≡ telling_by next_location_out (two metadata.old (two found.old location.old)) (asked_in (geometry_in geometry.now) (length image.now) (metadata_of metadata.old) (λ g m. next_location g m image.now)) }
{
    let g = call::geometry(geometry);
    let m = match values::metadata_of(metadata) {
        Ok(m) => m,
        Err(e) => return call::refusal(g, image.len(), e.number()),
    };
    let a = m.next_object_location(g, image);
    cursors::hand_next(a, metadata, found, location)
}

// Back to the first data object.
#[unsafe(no_mangle)]
pub extern "C" fn stumpchoir_metadata_reset(geometry: &[u32; 6], metadata: &mut [u32; 9]) -> u8
    ensures { told result metadata.new ≡ telling metadata_numbers metadata.old (fitting (geometry_in geometry.now) (reset_in metadata.old)) }
{
    let g = call::geometry(geometry);
    cursors::reset(g, metadata)
}
