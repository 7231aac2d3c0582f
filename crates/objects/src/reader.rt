// The reader of an object's payload: where it has come to. It goes in by value and comes back in the answer.
ghost use Rattle.std.specs.Prelude.{◌≡◌, ◌+◌, ◌≤◌, ◌<◌, length};
ghost use Rattle.medium.specs.Operation.{and_then};
ghost use Rattle.medium.specs.Refusal.{answer_of};
ghost use Rattle.objects.specs.Types.{rank_of};
ghost use Rattle.objects.specs.Reader.{readable, reader_at, reader_len, remaining_of, remaining, rewound, left_of, cursor_at, reading_answer, counting, read_some, filled};

use crate::header::ObjectHeader;
use crate::location::ObjectLocation;
use crate::payload;
use crate::state::{CompositeObjectState, ObjectState};
use medium::geometry::Geometry;
use medium::refusal::Refusal;

#[derive(Clone, Copy, Debug, PartialEq, Eq)]
pub struct ObjectReader {
    pub object: ObjectHeader,
    pub cursor: usize,
}

impl ObjectReader {
    // A reader of the object at a place: of a finished one, or of any that is there.
    #[tactic(auto, unfolding(crate::specs::Reader::reader_at))]
    pub fn new(
        g: Geometry,
        image: &[u8],
        at: ObjectLocation,
        unfinished: bool,
    ) -> Result<ObjectReader, Refusal>
        ensures { answer_of result ≡ reader_at g at unfinished image.now }
    {
        let header = ObjectHeader::read(g, image, at)?;
        if !is_readable(header.state, unfinished) {
            return Err(Refusal::FsCorrupted);
        }
        Ok(ObjectReader {
            object: header,
            cursor: 0,
        })
    }

    #[tactic(auto, unfolding(crate::specs::Reader::reader_len))]
    pub fn len(self, g: Geometry) -> Result<usize, Refusal>
        ensures { answer_of result ≡ reader_len g self }
    {
        medium::geometry::fit(g)?;
        if 65536 < self.cursor {
            return Err(Refusal::InvalidOperation);
        }
        Ok(self.object.payload(g.s))
    }

    // What is left of the payload: 9 where the cursor is beyond it.
    #[tactic(auto, unfolding(crate::specs::Reader::remaining_of))]
    fn left(self, s: u8) -> Result<usize, Refusal>
        ensures { answer_of result ≡ remaining_of s self }
    {
        let n = self.object.payload(s);
        let at = self.cursor;
        if n < at {
            return Err(Refusal::RustPanic);
        }
        Ok(n - at)
    }

    #[tactic(auto, unfolding(crate::specs::Reader::remaining))]
    pub fn remaining(self, g: Geometry) -> Result<usize, Refusal>
        ensures { answer_of result ≡ remaining g self }
    {
        medium::geometry::fit(g)?;
        if 65536 < self.cursor {
            return Err(Refusal::InvalidOperation);
        }
        self.left(g.s)
    }

    pub fn rewind(self) -> ObjectReader
        ensures { result ≡ rewound self }
    {
        ObjectReader { cursor: 0, ..self }
    }

    // The reader n bytes further on.
    fn moved(self, n: usize) -> ObjectReader
        requires { self.cursor + n < 18446744073709551616 }
        ensures { result ≡ Rattle.objects.specs.Reader.moved self n }
    {
        ObjectReader {
            cursor: self.cursor + n,
            ..self
        }
    }

    // What is left to read of an image of this length, or why nothing can be read: 6, 7, 4 or 9.
    #[tactic(auto, unfolding(crate::specs::Reader::left_of))]
    fn may_read(self, g: Geometry, room: usize) -> Result<usize, Refusal>
        ensures { answer_of result ≡ left_of g self room }
    {
        medium::geometry::check(g, room)?;
        if 65536 < self.cursor {
            return Err(Refusal::InvalidOperation);
        }
        self.left(g.s)
    }

    // Where the reader stands in its block.
    fn at(self, g: Geometry) -> usize
        requires { self.cursor ≤ 65536 }
        ensures { result ≡ cursor_at g self }
    {
        payload::at(g, self.object) + self.cursor
    }

    // As much of what is left as the buffer holds, into its first bytes: how many, and the reader behind them.
    #[tactic(auto, unfolding(crate::specs::Reader::left_of, crate::specs::Reader::read_some))]
    pub fn read(
        self,
        g: Geometry,
        image: &[u8],
        buffer: &mut [u8],
    ) -> Result<(usize, ObjectReader), Refusal>
        ensures result_value { reading_answer result ≡ and_then (read_some g self (length buffer.old) image.now) counting }
        ensures buffer_after { buffer.new ≡ filled (read_some g self (length buffer.old) image.now) buffer.old }
    {
        let left = self.may_read(g, image.len())?;
        let n = buffer.len().min(left);
        let block = self.object.location.block;
        medium::read(g, image, block, self.at(g), &mut buffer[..n])?;
        Ok((n, self.moved(n)))
    }
}

// A finished object can be read, and any that is there where unfinished ones are asked for.
fn is_readable(state: CompositeObjectState, unfinished: bool) -> bool
    ensures { result ≡ readable unfinished (rank_of state) }
{
    match state.state() {
        ObjectState::Free => false,
        ObjectState::Finalized => true,
        ObjectState::Allocated | ObjectState::Deleted => unfinished,
    }
}
