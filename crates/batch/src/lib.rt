// Several objects of one block in one call: up to 64 records, each written as `write_to` writes one, in order, up to the first refusal.
//
// Always true: the number of records done comes back beside every answer. They are the first ones, and each of them is wholly written.
#![tactic(auto)]

pub mod record;

ghost use Rattle.std.specs.Prelude.{◌≡◌, [], ◌∷◌};
ghost use Rattle.medium.specs.Refusal.{code_of};
ghost use Rattle.medium.specs.Operation.{run, ended, ended_with};
ghost use Rattle.medium.specs.Beside.{both};
ghost use Rattle.batch.specs.Batch.{batchable, write_record, write_all};

use crate::record::Record;
use medium::fuse::{Ended, Fuse, Stored};
use medium::geometry::Geometry;
use medium::refusal::Refusal;
use objects::location::ObjectLocation;
use objects::types::ObjectType;
use writer::writer::ObjectWriter;

// How many records a call takes at most.
const MOST_RECORDS: usize = 64;

// An answer, and how many records were done before it. No Result: the number comes back after a refusal too.
#[derive(Clone, Copy, Debug, PartialEq, Eq)]
pub struct Batched {
    pub answer: Stored,
    pub done: u32,
}

// What is tested before any store: 6, 7 for the image, 7 for more than 64 records or a part of one.
fn check(g: Geometry, room: usize, n: usize) -> Result<(), Refusal>
    ensures { code_of result ≡ batchable g room n }
{
    medium::geometry::check(g, room)?;
    if MOST_RECORDS * Record::LENGTH < n {
        return Err(Refusal::BadRoom);
    }
    if n % Record::LENGTH != 0 {
        return Err(Refusal::BadRoom);
    }
    Ok(())
}

// One record at its turn: 7 for its range, 4 for its type, and then written.
fn write_record(
    g: Geometry,
    image: &mut [u8],
    f: Fuse,
    block: u32,
    r: Record,
    payload: &[u8],
) -> Ended<usize>
    ensures { ended_with result image.new ≡ run f (write_record g block payload.now r) image.old }
{
    let start = r.start as usize;
    let end = start + (r.length as usize);
    if payload.len() < end {
        return f.beside(Err(Refusal::BadRoom));
    }
    let t = f.beside(ObjectType::try_from(r.kind))?;
    let at = ObjectLocation {
        block: block,
        offset: r.offset,
    };
    ObjectWriter::write_to(g, image, f, at, t, &payload[start..end])
}

// The records of a block, four numbers each (type, offset, start and length in the payload buffer), in order. No slice of records: C lends the
// numbers in a row.
pub fn write_all(
    g: Geometry,
    image: &mut [u8],
    f: Fuse,
    block: u32,
    records: &[u32],
    payload: &[u8],
) -> Batched
    ensures { ended result.answer (both image.new (result.done ∷ [])) ≡ run f (write_all g block records.now payload.now) (both image.old (0 ∷ [])) }
{
    if let Err(stopped) = f.beside(check(g, image.len(), records.len())) {
        return Batched {
            answer: Err(stopped),
            done: 0,
        };
    }
    let n = (records.len() / Record::LENGTH) as u32;
    let mut fuse = f;
    for i in 0..n {
        match write_record(g, image, fuse, block, Record::at(records, i), payload) {
            Ok((_, left)) => fuse = left,
            Err(stopped) => return Batched {
                answer: Err(stopped),
                done: i,
            },
        }
    }
    Batched {
        answer: Ok(fuse),
        done: n,
    }
}
