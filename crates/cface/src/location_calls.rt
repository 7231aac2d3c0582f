// Locations for C.
// Made by tools/cface.
ghost use Rattle.std.specs.Prelude.{◌≡◌};
ghost use Rattle.objects.specs.Location.{into_bytes, location_length, from_bytes};
ghost use Rattle.crossing.specs.Crossing.{told, two, telling_by, bytes_out, geometry_in, telling};
ghost use Rattle.crossing.specs.Values.{located, location_numbers};

use crate::filled;
use crossing::{call, hand};
use objects::location::ObjectLocation;

// The bytes of a location: the first c + s of the six are set, and *len is c + s.
#[unsafe(no_mangle)]
pub extern "C" fn stumpchoir_location_into_bytes(
    geometry: &[u32; 6],
    block: u32,
    offset: u32,
    bytes: &mut [u8; 6],
    len: &mut u64,
) -> u8
    ensures { told result (two bytes.new len.new) ≡ telling_by bytes_out (two bytes.old len.old) (into_bytes (geometry_in geometry.now) (located block offset) (location_length (geometry_in geometry.now))) }
{
    let g = call::geometry(geometry);
    let at = ObjectLocation {
        block: block,
        offset: offset,
    };
    filled::location(g, at, bytes, len)
}

// The block and offset that c + s bytes say; 9 for another length.
#[unsafe(no_mangle)]
pub extern "C" fn stumpchoir_location_from_bytes(
    geometry: &[u32; 6],
    bytes: &[u8],
    location: &mut [u32; 2],
) -> u8
    ensures { told result location.new ≡ telling location_numbers location.old (from_bytes (geometry_in geometry.now) bytes.now) }
{
    let g = call::geometry(geometry);
    let a = ObjectLocation::from_bytes(g, bytes);
    hand::hand(a, location)
}
