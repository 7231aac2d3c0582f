// Copying an object to another place, and moving it there.
//
// A copy is written by a writer, so it comes to be in a writer's order: type, payload, size, and last the mark that finishes it. A move deletes
// the original after that mark. What a loss of power leaves of it is in crates/powercut.
#![tactic(auto)]

pub mod source;

ghost use Rattle.std.specs.Prelude.{◌≡◌, ◌+◌, ◌≤◌, ◌<◌, ◌^◌, length, IfOk};
ghost use Rattle.medium.specs.Operation.{run, ended_with};
ghost use Rattle.medium.specs.Refusal.{answer_of};
ghost use Rattle.moving.specs.Moving.{source_at, chunk, turns_of, copying, copy_object, move_object};

use crate::source::Source;
use medium::fuse::{Ended, Fuse};
use medium::geometry::Geometry;
use medium::refusal::Refusal;
use objects::header::ObjectHeader;
use objects::location::ObjectLocation;
use objects::payload;
use objects::reader::ObjectReader;
use objects::state::{CompositeObjectState, ObjectDataState};
use writer::writer::ObjectWriter;

// The object anew at another place, of the type that h says.
pub fn copy_object(
    g: Geometry,
    image: &mut [u8],
    f: Fuse,
    h: ObjectHeader,
    to: ObjectLocation,
) -> Ended<ObjectHeader>
    ensures { ended_with result image.new ≡ run f (copy_object g h to) image.old }
{
    let src = f.beside(find_source(g, image, h))?;
    let (w1, f1) = ObjectWriter::try_allocate(g, image, f, to, src.kind)?;
    let from = payload::at(g, h);
    let (w2, f2) = copy(g, image, f1, h.location.block, from, src.size, w1)?;
    let (w3, f3) = w2.try_finalize(g, image, f2)?;
    Ok((w3.object, f3))
}

// Copied, and then deleted where it was.
pub fn move_object(
    g: Geometry,
    image: &mut [u8],
    f: Fuse,
    h: ObjectHeader,
    to: ObjectLocation,
) -> Ended<ObjectHeader>
    ensures { ended_with result image.new ≡ run f (move_object g h to) image.old }
{
    let (new, f1) = copy_object(g, image, f, h, to)?;
    let (_, f2) = h.set_state(g, image, f1, ObjectDataState::Deleted)?;
    Ok((new, f2))
}

// The header is read again, and must be that of a finished object; h says the type.
#[tactic(auto, unfolding(crate::specs::Moving::source_at))]
fn find_source(g: Geometry, image: &[u8], h: ObjectHeader) -> Result<Source, Refusal>
    ensures result_value { answer_of result ≡ source_at g h image.now }
    ensures small_source { IfOk result (λ s. s.size ≤ 4294967295) }
{
    let reader = ObjectReader::new(g, image, h.location, false)?;
    let CompositeObjectState::Allocated(t, _) = h.state else {
        return Err(Refusal::InvalidOperation);
    };
    Ok(Source {
        kind: t,
        size: reader.object.payload(g.s),
    })
}

// n payload bytes from a place of a block, 16 a turn.
fn copy(
    g: Geometry,
    image: &mut [u8],
    f: Fuse,
    block: u32,
    from: usize,
    n: usize,
    w: ObjectWriter,
) -> Ended<ObjectWriter>
    requires { (n ≤ 4294967295) × (from < 2 ^ 33) }
    ensures { ended_with result image.new ≡ run f (copying (turns_of n) g block from n w) image.old }
{
    let turns = (n + 15) / 16;
    let mut fuse = f;
    let mut v = w;
    for i in 0..turns {
        let done = 16 * i;
        let m = (n - done).min(16);
        let (next, left) = copy_some(g, image, fuse, block, from + done, m, v)?;
        v = next;
        fuse = left;
    }
    Ok((v, fuse))
}

// At most 16 bytes, read from the image as it is by now.
fn copy_some(
    g: Geometry,
    image: &mut [u8],
    f: Fuse,
    block: u32,
    at: usize,
    n: usize,
    w: ObjectWriter,
) -> Ended<ObjectWriter>
    requires { n ≤ 16 }
    ensures { ended_with result image.new ≡ run f (chunk g block at n w) image.old }
{
    let mut buffer = [0u8; 16];
    copy_by(g, image, f, block, at, w, &mut buffer[..n])
}

fn copy_by(
    g: Geometry,
    image: &mut [u8],
    f: Fuse,
    block: u32,
    at: usize,
    w: ObjectWriter,
    buffer: &mut [u8],
) -> Ended<ObjectWriter>
    ensures { ended_with result image.new ≡ run f (chunk g block at (length buffer.old) w) image.old }
{
    f.beside(medium::read(g, image, block, at, buffer))?;
    w.try_write(g, image, f, buffer)
}
