// All file names, one a call, in the order of a lookup.
ghost use Rattle.std.specs.Prelude.{◌≡◌, length};
ghost use Rattle.medium.specs.Answer.{and_then};
ghost use Rattle.medium.specs.Refusal.{answer_of};
ghost use Rattle.storage.specs.File.{put_into, count_of};
ghost use Rattle.storage.specs.Names.{name_at, name_of, names_from, next_name, name_answer, length_out, name_into};

use crate::visit::Visitor;
use blocks::header::BlockType;
use medium::geometry::Geometry;
use medium::refusal::Refusal;
use objects::header::ObjectHeader;
use objects::iterator::ObjectIterator;
use objects::location::ObjectLocation;
use objects::reader::ObjectReader;
use objects::{metadata, payload};

#[derive(Clone, Copy, Debug, PartialEq, Eq)]
pub struct Names {
    pub place: ObjectIterator,
}

// How long the next name is, where its file's metadata object is, and the names behind it.
#[derive(Clone, Copy, Debug, PartialEq, Eq)]
pub struct NextName {
    pub length: usize,
    pub location: ObjectLocation,
    pub names: Names,
}

// The name at a place, into the buffer's first bytes: 7 where it is longer. An empty one is not read, as a lookup does not.
#[tactic(auto, unfolding(crate::specs::Names::name_at), using(medium::proofs::Refusals::passed))]
fn name_at(
    g: Geometry,
    image: &[u8],
    at: ObjectLocation,
    buffer: &mut [u8],
) -> Result<usize, Refusal>
    ensures result_value { answer_of result ≡ count_of (name_at g at (length buffer.old) image.now) }
    ensures buffer_after { buffer.new ≡ put_into (name_at g at (length buffer.old) image.now) buffer.old }
{
    let r = ObjectReader::new(g, image, at, false)?;
    let n = r.object.payload(g.s);
    if buffer.len() < n {
        return Err(Refusal::BadRoom);
    }
    if n == 0 {
        return Ok(0);
    }
    let from = payload::at(g, r.object);
    medium::read(g, image, r.object.location.block, from, &mut buffer[..n])?;
    Ok(n)
}

// The name of a metadata object.
#[tactic(auto, unfolding(crate::specs::Names::name_of), using(medium::proofs::Refusals::passed))]
fn name_of(g: Geometry, image: &[u8], h: ObjectHeader, buffer: &mut [u8]) -> Result<usize, Refusal>
    ensures result_value { answer_of result ≡ count_of (name_of g h (length buffer.old) image.now) }
    ensures buffer_after { buffer.new ≡ put_into (name_of g h (length buffer.old) image.now) buffer.old }
{
    let m = metadata::read(g, image, h)?;
    name_at(g, image, m.name, buffer)
}

impl Names {
    // Before the first name.
    pub fn new(g: Geometry) -> Names
        ensures { result ≡ names_from g }
    {
        Names {
            place: ObjectIterator::new(g, 0),
        }
    }

    // The next name, into the buffer's first bytes; none at the end. After a refusal the caller's names stand.
    #[tactic(auto, unfolding(crate::specs::Names::next_name), using(medium::proofs::Refusals::passed))]
    pub fn next(
        self,
        g: Geometry,
        image: &[u8],
        buffer: &mut [u8],
    ) -> Result<Option<NextName>, Refusal>
        ensures result_value { name_answer result ≡ and_then (next_name g self (length buffer.old) image.now) length_out }
        ensures buffer_after { buffer.new ≡ name_into (next_name g self (length buffer.old) image.now) buffer.old }
    {
        let v = Visitor {
            place: self.place,
            opened: false,
        };
        let Some((h, w)) = v.next(g, image, BlockType::Metadata)? else {
            return Ok(None);
        };
        let length = name_of(g, image, h, buffer)?;
        Ok(Some(NextName {
            length: length,
            location: h.location,
            names: Names { place: w.place },
        }))
    }
}
