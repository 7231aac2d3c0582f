// Writers for C. A writer that came in is as it was after a refusal, and spent after 8. What stands behind each export, and what it does, is in crates/cface.
// Made by tools/cface.
ghost use Rattle.std.specs.Prelude.{◌≡◌};
ghost use Rattle.medium.specs.Operation.{run};
ghost use Rattle.objects.specs.Types.{object_type_of};
ghost use Rattle.writer.specs.Writer.{allocate, space_of, size_of_payload, size_of_object, write_some, finalize, delete};
ghost use Rattle.cface.specs.Writers.{writer_numbers, writer_of, spent_after};
ghost use Rattle.crossing.specs.Crossing.{crossed_with, crossing_with, fuse_of, given, geometry_in, told, telling, plain, asked};
ghost use Rattle.crossing.specs.Values.{located};

#[unsafe(no_mangle)]
pub extern "C" fn stumpchoir_writer_allocate(
    geometry: &[u32; 6],
    image: &mut [u8],
    fused: bool,
    units: &mut u32,
    block: u32,
    offset: u32,
    kind: u8,
    writer: &mut [u32; 12],
) -> u8
    ensures { crossed_with result units.new image.new writer.new ≡ crossing_with writer_numbers units.old writer.old (run (fuse_of fused units.old) (given (geometry_in geometry.now) (object_type_of kind) (λ g t. allocate g (located block offset) t)) image.old) }
{
    cface::writer_calls::stumpchoir_writer_allocate(
        geometry, image, fused, units, block, offset, kind, writer,
    )
}

#[unsafe(no_mangle)]
pub extern "C" fn stumpchoir_writer_space(
    geometry: &[u32; 6],
    writer: &[u32; 12],
    space: &mut u64,
) -> u8
    ensures { told result space.new ≡ telling plain space.old (asked (geometry_in geometry.now) (writer_of writer.now) (λ g w. space_of g w)) }
{
    cface::writer_calls::stumpchoir_writer_space(geometry, writer, space)
}

#[unsafe(no_mangle)]
pub extern "C" fn stumpchoir_writer_payload_size(
    geometry: &[u32; 6],
    writer: &[u32; 12],
    payload_size: &mut u64,
) -> u8
    ensures { told result payload_size.new ≡ telling plain payload_size.old (asked (geometry_in geometry.now) (writer_of writer.now) (λ g w. size_of_payload g w)) }
{
    cface::writer_calls::stumpchoir_writer_payload_size(geometry, writer, payload_size)
}

#[unsafe(no_mangle)]
pub extern "C" fn stumpchoir_writer_total_size(
    geometry: &[u32; 6],
    writer: &[u32; 12],
    total_size: &mut u64,
) -> u8
    ensures { told result total_size.new ≡ telling plain total_size.old (asked (geometry_in geometry.now) (writer_of writer.now) (λ g w. size_of_object g w)) }
{
    cface::writer_calls::stumpchoir_writer_total_size(geometry, writer, total_size)
}

#[unsafe(no_mangle)]
pub extern "C" fn stumpchoir_writer_write(
    geometry: &[u32; 6],
    image: &mut [u8],
    fused: bool,
    units: &mut u32,
    writer: &mut [u32; 12],
    src: &[u8],
) -> u8
    ensures { crossed_with result units.new image.new writer.new ≡ spent_after (crossing_with writer_numbers units.old writer.old (run (fuse_of fused units.old) (given (geometry_in geometry.now) (writer_of writer.old) (λ g w. write_some g w src.now)) image.old)) }
{
    cface::writer_calls::stumpchoir_writer_write(geometry, image, fused, units, writer, src)
}

#[unsafe(no_mangle)]
pub extern "C" fn stumpchoir_writer_finalize(
    geometry: &[u32; 6],
    image: &mut [u8],
    fused: bool,
    units: &mut u32,
    writer: &mut [u32; 12],
) -> u8
    ensures { crossed_with result units.new image.new writer.new ≡ spent_after (crossing_with writer_numbers units.old writer.old (run (fuse_of fused units.old) (given (geometry_in geometry.now) (writer_of writer.old) (λ g w. finalize g w)) image.old)) }
{
    cface::writer_calls::stumpchoir_writer_finalize(geometry, image, fused, units, writer)
}

#[unsafe(no_mangle)]
pub extern "C" fn stumpchoir_writer_delete(
    geometry: &[u32; 6],
    image: &mut [u8],
    fused: bool,
    units: &mut u32,
    writer: &mut [u32; 12],
) -> u8
    ensures { crossed_with result units.new image.new writer.new ≡ spent_after (crossing_with writer_numbers units.old writer.old (run (fuse_of fused units.old) (given (geometry_in geometry.now) (writer_of writer.old) (λ g w. delete g w)) image.old)) }
{
    cface::writer_calls::stumpchoir_writer_delete(geometry, image, fused, units, writer)
}
