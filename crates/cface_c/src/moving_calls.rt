// Objects written whole, copied and moved, for C. What stands behind each export, and what it does, is in crates/cface.
// Made by tools/cface.
ghost use Rattle.std.specs.Prelude.{◌≡◌};
ghost use Rattle.medium.specs.Operation.{run};
ghost use Rattle.moving.specs.Moving.{copy_object, move_object};
ghost use Rattle.objects.specs.Types.{object_type_of};
ghost use Rattle.writer.specs.Writer.{write_to};
ghost use Rattle.crossing.specs.Crossing.{crossed_with, crossing_with, plain, fuse_of, given, geometry_in};
ghost use Rattle.crossing.specs.Values.{located, header_numbers, header_of};

#[unsafe(no_mangle)]
pub extern "C" fn stumpchoir_write_to(
    geometry: &[u32; 6],
    image: &mut [u8],
    fused: bool,
    units: &mut u32,
    block: u32,
    offset: u32,
    kind: u8,
    src: &[u8],
    total_size: &mut u64,
) -> u8
    ensures { crossed_with result units.new image.new total_size.new ≡ crossing_with plain units.old total_size.old (run (fuse_of fused units.old) (given (geometry_in geometry.now) (object_type_of kind) (λ g t. write_to g (located block offset) t src.now)) image.old) }
{
    cface::moving_calls::stumpchoir_write_to(
        geometry, image, fused, units, block, offset, kind, src, total_size,
    )
}

#[unsafe(no_mangle)]
pub extern "C" fn stumpchoir_copy_object(
    geometry: &[u32; 6],
    image: &mut [u8],
    fused: bool,
    units: &mut u32,
    header: &[u32; 5],
    block: u32,
    offset: u32,
    copy: &mut [u32; 5],
) -> u8
    ensures { crossed_with result units.new image.new copy.new ≡ crossing_with header_numbers units.old copy.old (run (fuse_of fused units.old) (given (geometry_in geometry.now) (header_of header.now) (λ g h. copy_object g h (located block offset))) image.old) }
{
    cface::moving_calls::stumpchoir_copy_object(
        geometry, image, fused, units, header, block, offset, copy,
    )
}

#[unsafe(no_mangle)]
pub extern "C" fn stumpchoir_move_object(
    geometry: &[u32; 6],
    image: &mut [u8],
    fused: bool,
    units: &mut u32,
    header: &[u32; 5],
    block: u32,
    offset: u32,
    copy: &mut [u32; 5],
) -> u8
    ensures { crossed_with result units.new image.new copy.new ≡ crossing_with header_numbers units.old copy.old (run (fuse_of fused units.old) (given (geometry_in geometry.now) (header_of header.now) (λ g h. move_object g h (located block offset))) image.old) }
{
    cface::moving_calls::stumpchoir_move_object(
        geometry, image, fused, units, header, block, offset, copy,
    )
}
