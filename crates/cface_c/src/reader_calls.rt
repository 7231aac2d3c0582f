// Readers for C. What stands behind each export, and what it does, is in crates/cface.
// Made by tools/cface.
ghost use Rattle.std.specs.Prelude.{◌≡◌, length};
ghost use Rattle.objects.specs.Reader.{reader_at, reader_len, read_some};
ghost use Rattle.cface.specs.Objects.{rewind_of, chunk_out};
ghost use Rattle.crossing.specs.Crossing.{told, telling, geometry_in, plain, asked, fitting, two, telling_by, asked_in};
ghost use Rattle.crossing.specs.Values.{reader_numbers, located, reader_of};

#[unsafe(no_mangle)]
pub extern "C" fn stumpchoir_reader_new(
    geometry: &[u32; 6],
    image: &[u8],
    block: u32,
    offset: u32,
    allow_non_finalized: bool,
    reader: &mut [u32; 6],
) -> u8
    ensures { told result reader.new ≡ telling reader_numbers reader.old (reader_at (geometry_in geometry.now) (located block offset) allow_non_finalized image.now) }
{
    cface::reader_calls::stumpchoir_reader_new(
        geometry,
        image,
        block,
        offset,
        allow_non_finalized,
        reader,
    )
}

#[unsafe(no_mangle)]
pub extern "C" fn stumpchoir_reader_len(geometry: &[u32; 6], reader: &[u32; 6], len: &mut u64) -> u8
    ensures { told result len.new ≡ telling plain len.old (asked (geometry_in geometry.now) (reader_of reader.now) (λ g r. reader_len g r)) }
{
    cface::reader_calls::stumpchoir_reader_len(geometry, reader, len)
}

#[unsafe(no_mangle)]
pub extern "C" fn stumpchoir_reader_remaining(
    geometry: &[u32; 6],
    reader: &[u32; 6],
    remaining: &mut u64,
) -> u8
    ensures { told result remaining.new ≡ telling plain remaining.old (asked (geometry_in geometry.now) (reader_of reader.now) (λ g r. Rattle.objects.specs.Reader.remaining g r)) }
{
    cface::reader_calls::stumpchoir_reader_remaining(geometry, reader, remaining)
}

#[unsafe(no_mangle)]
pub extern "C" fn stumpchoir_reader_rewind(geometry: &[u32; 6], reader: &mut [u32; 6]) -> u8
    ensures { told result reader.new ≡ telling reader_numbers reader.old (fitting (geometry_in geometry.now) (rewind_of reader.old)) }
{
    cface::reader_calls::stumpchoir_reader_rewind(geometry, reader)
}

#[unsafe(no_mangle)]
pub extern "C" fn stumpchoir_reader_read(
    geometry: &[u32; 6],
    image: &[u8],
    reader: &mut [u32; 6],
    buffer: &mut [u8],
    read: &mut u64,
) -> u8
    ensures { told result (two reader.new (two buffer.new read.new)) ≡ telling_by chunk_out (two reader.old (two buffer.old read.old)) (asked_in (geometry_in geometry.now) (length image.now) (reader_of reader.old) (λ g r. read_some g r (length buffer.old) image.now)) }
{
    cface::reader_calls::stumpchoir_reader_read(geometry, image, reader, buffer, read)
}
