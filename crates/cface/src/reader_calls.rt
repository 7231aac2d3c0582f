// Readers for C.
// Made by tools/cface.
ghost use Rattle.std.specs.Prelude.{◌≡◌, length};
ghost use Rattle.objects.specs.Reader.{reader_at, reader_len, read_some};
ghost use Rattle.cface.specs.Objects.{rewind_of, chunk_out};
ghost use Rattle.crossing.specs.Crossing.{told, telling, geometry_in, plain, asked, fitting, two, telling_by, asked_in};
ghost use Rattle.crossing.specs.Values.{reader_numbers, located, reader_of};

use crate::cursors;
use crossing::{call, hand, values};
use objects::location::ObjectLocation;
use objects::reader::ObjectReader;

// A reader of the Finalized object at a place, or of any object that is there.
#[unsafe(no_mangle)]
pub extern "C" fn stumpchoir_reader_new(
    geometry: &[u32; 6],
    image: &[u8],
    block: u32,
    offset: u32,
    allow_non_finalized: bool,
    reader: &mut [u32; 6],
) -> u8
    ensures { told result reader.new ≡ telling reader_numbers reader.old (reader_at (geometry_in geometry.now) (located block offset) allow_non_finalized image.now) }
{
    let g = call::geometry(geometry);
    let at = ObjectLocation {
        block: block,
        offset: offset,
    };
    let a = ObjectReader::new(g, image, at, allow_non_finalized);
    cursors::hand_reader(a, reader)
}

// The payload size of the reader's object, 0 where it is unset.
#[unsafe(no_mangle)]
pub extern "C" fn stumpchoir_reader_len(geometry: &[u32; 6], reader: &[u32; 6], len: &mut u64) -> u8
    ensures { told result len.new ≡ telling plain len.old (asked (geometry_in geometry.now) (reader_of reader.now) (λ g r. reader_len g r)) }
{
    let g = call::geometry(geometry);
    let r = match values::reader_of(reader) {
        Ok(r) => r,
        Err(e) => return call::refusal_alone(g, e.number()),
    };
    let a = r.len(g);
    hand::hand(a, len)
}

// What is left of the payload; 9 where the cursor is beyond it.
#[unsafe(no_mangle)]
pub extern "C" fn stumpchoir_reader_remaining(
    geometry: &[u32; 6],
    reader: &[u32; 6],
    remaining: &mut u64,
) -> u8
    ensures { told result remaining.new ≡ telling plain remaining.old (asked (geometry_in geometry.now) (reader_of reader.now) (λ g r. Rattle.objects.specs.Reader.remaining g r)) }
{
    let g = call::geometry(geometry);
    let r = match values::reader_of(reader) {
        Ok(r) => r,
        Err(e) => return call::refusal_alone(g, e.number()),
    };
    let a = r.remaining(g);
    hand::hand(a, remaining)
}

// Back to the start of the payload.
#[unsafe(no_mangle)]
pub extern "C" fn stumpchoir_reader_rewind(geometry: &[u32; 6], reader: &mut [u32; 6]) -> u8
    ensures { told result reader.new ≡ telling reader_numbers reader.old (fitting (geometry_in geometry.now) (rewind_of reader.old)) }
{
    let g = call::geometry(geometry);
    cursors::rewind(g, reader)
}

// As much of what is left as the buffer holds, into its first *read bytes.
#[unsafe(no_mangle)]
pub extern "C" fn stumpchoir_reader_read(
    geometry: &[u32; 6],
    image: &[u8],
    reader: &mut [u32; 6],
    buffer: &mut [u8],
    read: &mut u64,
) -> u8
    ensures { told result (two reader.new (two buffer.new read.new)) ≡ telling_by chunk_out (two reader.old (two buffer.old read.old)) (asked_in (geometry_in geometry.now) (length image.now) (reader_of reader.old) (λ g r. read_some g r (length buffer.old) image.now)) }
{
    let g = call::geometry(geometry);
    let r = match values::reader_of(reader) {
        Ok(r) => r,
        Err(e) => return call::refusal(g, image.len(), e.number()),
    };
    cursors::read(g, image, r, reader, buffer, read)
}
