// Locations for C. What stands behind each export, and what it does, is in crates/cface.
// Made by tools/cface.
ghost use Rattle.std.specs.Prelude.{◌≡◌};
ghost use Rattle.objects.specs.Location.{into_bytes, location_length, from_bytes};
ghost use Rattle.crossing.specs.Crossing.{told, two, telling_by, bytes_out, geometry_in, telling};
ghost use Rattle.crossing.specs.Values.{located, location_numbers};

#[unsafe(no_mangle)]
pub extern "C" fn stumpchoir_location_into_bytes(
    geometry: &[u32; 6],
    block: u32,
    offset: u32,
    bytes: &mut [u8; 6],
    len: &mut u64,
) -> u8
    ensures { told result (two bytes.new len.new) ≡ telling_by bytes_out (two bytes.old len.old) (into_bytes (geometry_in geometry.now) (located block offset) (location_length (geometry_in geometry.now))) }
{
    cface::location_calls::stumpchoir_location_into_bytes(geometry, block, offset, bytes, len)
}

#[unsafe(no_mangle)]
pub extern "C" fn stumpchoir_location_from_bytes(
    geometry: &[u32; 6],
    bytes: &[u8],
    location: &mut [u32; 2],
) -> u8
    ensures { told result location.new ≡ telling location_numbers location.old (from_bytes (geometry_in geometry.now) bytes.now) }
{
    cface::location_calls::stumpchoir_location_from_bytes(geometry, bytes, location)
}
