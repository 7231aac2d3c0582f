// Headers for C. What stands behind each export, and what it does, is in crates/cface.
// Made by tools/cface.
ghost use Rattle.std.specs.Prelude.{◌≡◌};
ghost use Rattle.medium.specs.Operation.{run};
ghost use Rattle.objects.specs.Header.{header_at, update_state, set_payload_size};
ghost use Rattle.crossing.specs.Crossing.{told, telling, geometry_in, crossed_with, crossing_with, fuse_of, given};
ghost use Rattle.crossing.specs.Values.{header_numbers, located, target_of, header_of};

#[unsafe(no_mangle)]
pub extern "C" fn stumpchoir_header_read(
    geometry: &[u32; 6],
    image: &[u8],
    block: u32,
    offset: u32,
    header: &mut [u32; 5],
) -> u8
    ensures { told result header.new ≡ telling header_numbers header.old (header_at (geometry_in geometry.now) (located block offset) image.now) }
{
    cface::header_calls::stumpchoir_header_read(geometry, image, block, offset, header)
}

#[unsafe(no_mangle)]
pub extern "C" fn stumpchoir_update_state(
    geometry: &[u32; 6],
    image: &mut [u8],
    fused: bool,
    units: &mut u32,
    header: &mut [u32; 5],
    state: u8,
) -> u8
    ensures { crossed_with result units.new image.new header.new ≡ crossing_with header_numbers units.old header.old (run (fuse_of fused units.old) (given (geometry_in geometry.now) (target_of header.old state) (λ g t. update_state g t.header t.state)) image.old) }
{
    cface::header_calls::stumpchoir_update_state(geometry, image, fused, units, header, state)
}

#[unsafe(no_mangle)]
pub extern "C" fn stumpchoir_set_payload_size(
    geometry: &[u32; 6],
    image: &mut [u8],
    fused: bool,
    units: &mut u32,
    header: &mut [u32; 5],
    payload_size: u32,
) -> u8
    ensures { crossed_with result units.new image.new header.new ≡ crossing_with header_numbers units.old header.old (run (fuse_of fused units.old) (given (geometry_in geometry.now) (header_of header.old) (λ g h. set_payload_size g h payload_size)) image.old) }
{
    cface::header_calls::stumpchoir_set_payload_size(
        geometry,
        image,
        fused,
        units,
        header,
        payload_size,
    )
}
