// Headers for C.
// Made by tools/cface.
ghost use Rattle.std.specs.Prelude.{◌≡◌};
ghost use Rattle.medium.specs.Operation.{run};
ghost use Rattle.objects.specs.Header.{header_at, update_state, set_payload_size};
ghost use Rattle.crossing.specs.Crossing.{told, telling, geometry_in, crossed_with, crossing_with, fuse_of, given};
ghost use Rattle.crossing.specs.Values.{header_numbers, located, target_of, header_of};

use crossing::call::Told;
use crossing::{call, hand, outs, values};
use objects::header::ObjectHeader;
use objects::location::ObjectLocation;

// The header at a place.
#[unsafe(no_mangle)]
pub extern "C" fn stumpchoir_header_read(
    geometry: &[u32; 6],
    image: &[u8],
    block: u32,
    offset: u32,
    header: &mut [u32; 5],
) -> u8
    ensures { told result header.new ≡ telling header_numbers header.old (header_at (geometry_in geometry.now) (located block offset) image.now) }
{
    let g = call::geometry(geometry);
    let at = ObjectLocation {
        block: block,
        offset: offset,
    };
    let a = ObjectHeader::read(g, image, at);
    hand::hand(a, header)
}

// Stores the mark of a state that lies ahead, or is 10; the present state stores nothing, backwards is 4, Free is 9.
#[unsafe(no_mangle)]
pub extern "C" fn stumpchoir_update_state(
    geometry: &[u32; 6],
    image: &mut [u8],
    fused: bool,
    units: &mut u32,
    header: &mut [u32; 5],
    state: u8,
) -> u8
    ensures { crossed_with result units.new image.new header.new ≡ crossing_with header_numbers units.old header.old (run (fuse_of fused units.old) (given (geometry_in geometry.now) (target_of header.old state) (λ g t. update_state g t.header t.state)) image.old) }
{
    let g = call::geometry(geometry);
    let t = match values::target_of(header, state) {
        Ok(t) => t,
        Err(e) => return call::refusal(g, image.len(), e.number()),
    };
    let f = call::fuse_of(fused, units);
    let a = t.header.update_state(g, image, f, t.state);
    outs::hand_back(a.map_err(Told::from), units, header)
}

// Stores the low s bytes of a size that is not set yet, or is 10; one that is set is 4.
#[unsafe(no_mangle)]
pub extern "C" fn stumpchoir_set_payload_size(
    geometry: &[u32; 6],
    image: &mut [u8],
    fused: bool,
    units: &mut u32,
    header: &mut [u32; 5],
    payload_size: u32,
) -> u8
    ensures { crossed_with result units.new image.new header.new ≡ crossing_with header_numbers units.old header.old (run (fuse_of fused units.old) (given (geometry_in geometry.now) (header_of header.old) (λ g h. set_payload_size g h payload_size)) image.old) }
{
    let g = call::geometry(geometry);
    let h = match values::header_of(header) {
        Ok(h) => h,
        Err(e) => return call::refusal(g, image.len(), e.number()),
    };
    let f = call::fuse_of(fused, units);
    let a = h.set_payload_size(g, image, f, payload_size);
    outs::hand_back(a.map_err(Told::from), units, header)
}
