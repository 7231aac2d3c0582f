// Readers and metadata headers that go out as numbers: their cursors are wider than a number that goes out, so it is shown why they fit.
ghost use Rattle.std.specs.Prelude.{◌≡◌, ◌<◌, length};
ghost use Rattle.medium.specs.Refusal.{answer_of};
ghost use Rattle.objects.specs.Reader.{read_some};
ghost use Rattle.objects.specs.Metadata.{next_location_answer};
ghost use Rattle.crossing.specs.Crossing.{told, telling, telling_by, two, fitting};
ghost use Rattle.crossing.specs.Values.{reader_numbers, metadata_numbers};
ghost use Rattle.cface.specs.Objects.{SmallReader, rewind_of, chunk_out, SmallMetadata, reset_in, SmallNext, next_location_out};

use crossing::hand::Crosses;
use crossing::values;
use medium::geometry;
use medium::geometry::Geometry;
use medium::refusal::Refusal;
use objects::location::ObjectLocation;
use objects::metadata::MetadataObjectHeader;
use objects::reader::ObjectReader;

fn put_reader(r: ObjectReader, out: &mut [u32; 6])
    requires { r.cursor < 4294967296 }
    ensures { out.new ≡ reader_numbers r }
{
    let h = r.object;
    let kind = h.state.type_byte() as u32;
    let rank = h.state.rank() as u32;
    *out = [
        kind,
        rank,
        h.size,
        h.location.block,
        h.location.offset,
        r.cursor as u32,
    ];
}

fn put_metadata(m: MetadataObjectHeader, out: &mut [u32; 9])
    requires { m.cursor < 4294967296 }
    ensures { out.new ≡ metadata_numbers m }
{
    let h = m.object;
    let kind = h.state.type_byte() as u32;
    let rank = h.state.rank() as u32;
    *out = [
        kind,
        rank,
        h.size,
        h.location.block,
        h.location.offset,
        m.hash,
        m.name.block,
        m.name.offset,
        m.cursor as u32,
    ];
}

// The number of a reader's answer, and the reader where there is one.
#[tactic(auto, unfolding(crossing::specs::Crossing::telling_by))]
pub(crate) fn hand_reader(answer: Result<ObjectReader, Refusal>, out: &mut [u32; 6]) -> u8
    requires { SmallReader (answer_of answer) }
    ensures { told result out.new ≡ telling reader_numbers out.old (answer_of answer) }
{
    match answer {
        Ok(r) => {
            put_reader(r, out);
            0
        }
        Err(e) => e.number(),
    }
}

// The same of a metadata header.
#[tactic(auto, unfolding(crossing::specs::Crossing::telling_by))]
pub(crate) fn hand_metadata(answer: Result<MetadataObjectHeader, Refusal>, out: &mut [u32; 9]) -> u8
    requires { SmallMetadata (answer_of answer) }
    ensures { told result out.new ≡ telling metadata_numbers out.old (answer_of answer) }
{
    match answer {
        Ok(m) => {
            put_metadata(m, out);
            0
        }
        Err(e) => e.number(),
    }
}

// And of the next location of a list: 1 with it and with the metadata header behind it, or 0 at the end.
#[tactic(auto, unfolding(crossing::specs::Crossing::telling_by))]
pub(crate) fn hand_next(
    answer: Result<Option<(ObjectLocation, MetadataObjectHeader)>, Refusal>,
    metadata: &mut [u32; 9],
    found: &mut u32,
    location: &mut [u32; 2],
) -> u8
    requires { SmallNext (next_location_answer answer) }
    ensures { told result (two metadata.new (two found.new location.new)) ≡ telling_by next_location_out (two metadata.old (two found.old location.old)) (next_location_answer answer) }
{
    match answer {
        Ok(Some((at, next))) => {
            put_metadata(next, metadata);
            *found = 1;
            *location = at.numbers();
            0
        }
        Ok(None) => {
            *found = 0;
            0
        }
        Err(e) => e.number(),
    }
}

// The reader that the numbers say, at the start of the payload again. The library has no geometry to test there, so 6 is given here.
#[tactic(auto, unfolding(crossing::specs::Crossing::fitting), using(medium::proofs::Refusals::passed, medium::proofs::Refusals::not_done, objects::proofs::Answers::gate_on, objects::proofs::Answers::gate_stop))]
fn rewound(g: Geometry, reader: &[u32; 6]) -> Result<ObjectReader, Refusal>
    ensures value { answer_of result ≡ fitting g (rewind_of reader.now) }
    ensures small { SmallReader (answer_of result) }
{
    geometry::fit(g)?;
    let r = values::reader_of(reader)?;
    Ok(r.rewind())
}

pub(crate) fn rewind(g: Geometry, reader: &mut [u32; 6]) -> u8
    ensures { told result reader.new ≡ telling reader_numbers reader.old (fitting g (rewind_of reader.old)) }
{
    let a = rewound(g, reader);
    hand_reader(a, reader)
}

// The same of a metadata header, at its first location again.
#[tactic(auto, unfolding(crossing::specs::Crossing::fitting), using(medium::proofs::Refusals::passed, medium::proofs::Refusals::not_done, objects::proofs::Answers::gate_on, objects::proofs::Answers::gate_stop))]
fn first_of(g: Geometry, metadata: &[u32; 9]) -> Result<MetadataObjectHeader, Refusal>
    ensures value { answer_of result ≡ fitting g (reset_in metadata.now) }
    ensures small { SmallMetadata (answer_of result) }
{
    geometry::fit(g)?;
    let m = values::metadata_of(metadata)?;
    Ok(m.reset())
}

pub(crate) fn reset(g: Geometry, metadata: &mut [u32; 9]) -> u8
    ensures { told result metadata.new ≡ telling metadata_numbers metadata.old (fitting g (reset_in metadata.old)) }
{
    let a = first_of(g, metadata);
    hand_metadata(a, metadata)
}

// As much of the payload as the buffer holds, into its first bytes; then how many, and the reader behind them.
pub(crate) fn read(
    g: Geometry,
    image: &[u8],
    r: ObjectReader,
    reader: &mut [u32; 6],
    buffer: &mut [u8],
    read: &mut u64,
) -> u8
    ensures { told result (two reader.new (two buffer.new read.new)) ≡ telling_by chunk_out (two reader.old (two buffer.old read.old)) (read_some g r (length buffer.old) image.now) }
{
    match r.read(g, image, buffer) {
        Ok((n, next)) => {
            put_reader(next, reader);
            *read = n as u64;
            0
        }
        Err(e) => e.number(),
    }
}
