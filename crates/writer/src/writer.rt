// The writer of an object: it stores whole words, and holds what is less than one.
ghost use Rattle.std.specs.Prelude.{◌≡◌, ◌+◌, ◌≤◌, ◌<◌, ◌^◌, length, IfOk};
ghost use Rattle.std.proofs.Math.Seq.{paste};
ghost use Rattle.medium.specs.Granularity.{widest_unit, width_of};
ghost use Rattle.medium.specs.Operation.{run, ended_by, ended_with, unless_stored};
ghost use Rattle.medium.specs.Refusal.{answer_of, code_of};
ghost use Rattle.objects.specs.Types.{rank_of};
ghost use Rattle.writer.specs.Writer.{fresh_of, spent_of, kept_of, back_of, with_header, data_at, sound_of, space_of, size_of_payload, size_of_object, may_write, write_some, pending_of, put_pending, held_back, may_finish, write_to};
ghost use Rattle.writer.specs.Steps.{spent_by, usable_of, store_words, marked};

use medium::fuse::{Ended, Fuse, Stored};
use medium::geometry::Geometry;
use medium::granularity::Granularity;
use medium::refusal::Refusal;
use objects::header::ObjectHeader;
use objects::location::ObjectLocation;
use objects::state::{CompositeObjectState, ObjectDataState, ObjectState};
use objects::types::ObjectType;
use objects::{header, info, payload};

#[derive(Clone, Copy, Debug, PartialEq, Eq)]
pub struct ObjectWriter {
    pub object: ObjectHeader,
    pub cursor: usize,
    // The held bytes, and how many: no type excludes a count that is too high, since C can hand one in, and it is refused with 4.
    pub tail: [u8; Granularity::WIDEST_UNIT],
    pub held: usize,
    pub spent: bool,
}

// A writer beside the answer of its call. No Result, since the writer comes back after a refusal too.
#[derive(Clone, Copy, Debug, PartialEq, Eq)]
pub struct Writing {
    pub answer: Stored,
    pub writer: ObjectWriter,
}

impl ObjectWriter {
    // Stores the type, over Free or over Allocated of the same type.
    pub fn allocate(
        g: Geometry,
        image: &mut [u8],
        f: Fuse,
        at: ObjectLocation,
        t: ObjectType,
    ) -> Writing
        ensures image_after { ended_by result.answer result.writer image.new ≡ run f (Rattle.writer.specs.Writer.allocate g at t) image.old }
        ensures writer_value { result.writer ≡ unless_stored result.answer (spent_of (fresh_of g at t)) result.writer }
    {
        match ObjectWriter::try_allocate(g, image, f, at, t) {
            Ok((writer, fuse)) => Writing {
                answer: Ok(fuse),
                writer: writer,
            },
            Err(stopped) => ObjectWriter::fresh(g, at, t).spent_by(Err(stopped)),
        }
    }

    // Takes payload bytes: whole words are stored, less than a word is held.
    pub fn write(self, g: Geometry, image: &mut [u8], f: Fuse, src: &[u8]) -> Writing
        ensures image_after { ended_by result.answer result.writer image.new ≡ run f (write_some g self src.now) image.old }
        ensures writer_value { result.writer ≡ kept_of result.answer self result.writer }
    {
        self.back(self.try_write(g, image, f, src))
    }

    // Ends the object: what is held, the size, and the mark of a finished object.
    pub fn finalize(self, g: Geometry, image: &mut [u8], f: Fuse) -> Writing
        ensures image_after { ended_by result.answer result.writer image.new ≡ run f (Rattle.writer.specs.Writer.finalize g self) image.old }
        ensures writer_value { result.writer ≡ kept_of result.answer self result.writer }
    {
        self.back(self.try_finalize(g, image, f))
    }

    // Deletes the object: one that is not finished gets its size first.
    pub fn delete(self, g: Geometry, image: &mut [u8], f: Fuse) -> Writing
        ensures image_after { ended_by result.answer result.writer image.new ≡ run f (Rattle.writer.specs.Writer.delete g self) image.old }
        ensures writer_value { result.writer ≡ kept_of result.answer self result.writer }
    {
        self.back(self.try_delete(g, image, f))
    }

    // An object written whole, and the bytes that it takes. The type is stored first: 5 leaves it there.
    pub fn write_to(
        g: Geometry,
        image: &mut [u8],
        f: Fuse,
        at: ObjectLocation,
        t: ObjectType,
        src: &[u8],
    ) -> Ended<usize>
        ensures { ended_with result image.new ≡ run f (write_to g at t src.now) image.old }
    {
        let (w1, f1) = ObjectWriter::try_allocate(g, image, f, at, t)?;
        let (w2, f2) = w1.try_write(g, image, f1, src)?;
        let (w3, f3) = w2.try_finalize(g, image, f2)?;
        Ok((info::total(w3.object, g.granularity, g.s), f3))
    }
}

// The same calls for a caller that drops the writer after a refusal: so ? serves.
impl ObjectWriter {
    pub fn try_allocate(
        g: Geometry,
        image: &mut [u8],
        f: Fuse,
        at: ObjectLocation,
        t: ObjectType,
    ) -> Ended<ObjectWriter>
        ensures { ended_with result image.new ≡ run f (Rattle.writer.specs.Writer.allocate g at t) image.old }
    {
        let state = f.beside(CompositeObjectState::read(g, image, at))?;
        f.beside(state.allocatable(t))?;
        let fuse = medium::write(g, image, f, at.block, at.offset as usize, &[u8::from(t)])?;
        Ok((ObjectWriter::fresh(g, at, t), fuse))
    }

    pub fn try_write(
        self,
        g: Geometry,
        image: &mut [u8],
        f: Fuse,
        src: &[u8],
    ) -> Ended<ObjectWriter>
        ensures { ended_with result image.new ≡ run f (write_some g self src.now) image.old }
    {
        f.beside(self.may_write(g, image.len(), src.len()))?;
        self.store(g, image, f, src)
    }

    pub fn try_finalize(self, g: Geometry, image: &mut [u8], f: Fuse) -> Ended<ObjectWriter>
        ensures { ended_with result image.new ≡ run f (Rattle.writer.specs.Writer.finalize g self) image.old }
    {
        f.beside(self.may_finish(g, image.len()))?;
        self.close(g, image, f, ObjectDataState::Valid)
    }

    pub fn try_delete(self, g: Geometry, image: &mut [u8], f: Fuse) -> Ended<ObjectWriter>
        ensures { ended_with result image.new ≡ run f (Rattle.writer.specs.Writer.delete g self) image.old }
    {
        f.beside(self.sound(g, image.len()))?;
        self.deleting(g, image, f)
    }
}

// What a writer says of itself: 6 for the geometry, 4 for an impossible writer.
impl ObjectWriter {
    // The payload bytes that still fit: 9 where the writer stands past the block's end.
    #[tactic(auto, unfolding(crate::specs::Writer::space_of))]
    pub fn space(self, g: Geometry) -> Result<usize, Refusal>
        ensures { answer_of result ≡ space_of g self }
    {
        self.usable(g)?;
        let at = self.data_at(g) + self.held;
        let size = g.size as usize;
        if size < at {
            return Err(Refusal::RustPanic);
        }
        Ok(size - at)
    }

    // The payload bytes taken so far, stored or held.
    #[tactic(auto, unfolding(crate::specs::Writer::size_of_payload))]
    pub fn payload_size(self, g: Geometry) -> Result<usize, Refusal>
        ensures { answer_of result ≡ size_of_payload g self }
    {
        self.usable(g)?;
        Ok(self.cursor + self.held)
    }

    // Those and the header.
    #[tactic(auto, unfolding(crate::specs::Writer::size_of_object))]
    pub fn total_size(self, g: Geometry) -> Result<usize, Refusal>
        ensures { answer_of result ≡ size_of_object g self }
    {
        self.usable(g)?;
        Ok(g.granularity.object_header(g.s) + (self.cursor + self.held))
    }

    fn usable(self, g: Geometry) -> Result<(), Refusal>
        ensures { code_of result ≡ usable_of self g }
    {
        medium::geometry::fit(g)?;
        self.possible(g)
    }

    // 4 where the tail is as long as a word, or the cursor above 65,536.
    fn possible(self, g: Geometry) -> Result<(), Refusal>
        ensures { code_of result ≡ Rattle.writer.specs.Writer.possible g self }
    {
        if g.granularity.width() <= self.held {
            return Err(Refusal::InvalidOperation);
        }
        if 65536 < self.cursor {
            return Err(Refusal::InvalidOperation);
        }
        Ok(())
    }

    // Where the next payload byte is stored.
    fn data_at(self, g: Geometry) -> usize
        requires { self.cursor ≤ 65540 }
        ensures value { result ≡ data_at g self }
        ensures upper_bound { result < 2 ^ 33 }
    {
        payload::at(g, self.object) + self.cursor
    }
}

// Whether a call may go on.
impl ObjectWriter {
    // 6, 7, then 4 for a spent or an impossible writer.
    fn sound(self, g: Geometry, room: usize) -> Result<(), Refusal>
        ensures { code_of result ≡ sound_of self g room }
    {
        medium::geometry::check(g, room)?;
        if self.spent {
            return Err(Refusal::InvalidOperation);
        }
        self.possible(g)
    }

    // For n bytes more: 4 out of state, 9 past the block's end, 5 too many. By a difference, so that a false length cannot wrap.
    #[tactic(auto, unfolding(crate::specs::Writer::may_write))]
    fn may_write(self, g: Geometry, room: usize, n: usize) -> Result<(), Refusal>
        ensures { code_of result ≡ may_write self g room n }
    {
        self.sound(g, room)?;
        if !self.object.state.is(ObjectState::Allocated) {
            return Err(Refusal::InvalidOperation);
        }
        let at = self.data_at(g) + self.held;
        let size = g.size as usize;
        if size < at {
            return Err(Refusal::RustPanic);
        }
        if size - at < n {
            return Err(Refusal::InsufficientSpace);
        }
        Ok(())
    }

    #[tactic(auto, unfolding(crate::specs::Writer::may_finish))]
    fn may_finish(self, g: Geometry, room: usize) -> Result<(), Refusal>
        ensures { code_of result ≡ may_finish self g room }
    {
        self.sound(g, room)?;
        if !self.object.state.is(ObjectState::Allocated) {
            return Err(Refusal::InvalidOperation);
        }
        Ok(())
    }
}

// What becomes of a writer.
impl ObjectWriter {
    fn fresh(g: Geometry, at: ObjectLocation, t: ObjectType) -> ObjectWriter
        ensures { result ≡ fresh_of g at t }
    {
        ObjectWriter {
            object: ObjectHeader {
                state: CompositeObjectState::Allocated(t, ObjectDataState::Untrusted),
                size: header::unset(g.s),
                location: at,
            },
            cursor: 0,
            tail: [0; Granularity::WIDEST_UNIT],
            held: 0,
            spent: false,
        }
    }

    // No call goes on with this writer.
    fn spent_by(self, a: Stored) -> Writing
        ensures { result ≡ spent_by self a }
    {
        let mut w = self;
        w.spent = true;
        Writing {
            answer: a,
            writer: w,
        }
    }

    // What a call made of it; after a refusal as it went in, but spent where the power was lost.
    fn back(self, ended: Ended<ObjectWriter>) -> Writing
        ensures { result ≡ back_of self ended }
    {
        match ended {
            Ok((writer, fuse)) => Writing {
                answer: Ok(fuse),
                writer: writer,
            },
            Err(stopped) => {
                if stopped.refusal == Refusal::PowerLost {
                    return self.spent_by(Err(stopped));
                }
                Writing {
                    answer: Err(stopped),
                    writer: self,
                }
            }
        }
    }

    // n bytes on, with the rest held.
    fn held_back(self, n: usize, rest: &[u8]) -> ObjectWriter
        requires { (self.cursor + n < 2 ^ 63) × (length rest.now ≤ widest_unit) }
        ensures { result ≡ held_back self n rest.now }
    {
        ObjectWriter {
            cursor: self.cursor + n,
            tail: pasted([0; Granularity::WIDEST_UNIT], 0, rest),
            held: rest.len(),
            ..self
        }
    }

    // The held bytes are stored.
    fn emptied(self) -> ObjectWriter
        requires { self.cursor + self.held < 2 ^ 63 }
        ensures { result ≡ Rattle.writer.specs.Writer.emptied self }
    {
        ObjectWriter {
            cursor: self.cursor + self.held,
            tail: [0; Granularity::WIDEST_UNIT],
            held: 0,
            ..self
        }
    }

    fn with(self, h: ObjectHeader) -> ObjectWriter
        ensures { result ≡ with_header self h }
    {
        ObjectWriter { object: h, ..self }
    }
}

// The word with src's bytes from a place on.
fn pasted(
    word: [u8; Granularity::WIDEST_UNIT],
    at: usize,
    src: &[u8],
) -> [u8; Granularity::WIDEST_UNIT]
    requires { at + length src.now ≤ widest_unit }
    ensures { result ≡ paste word at src.now (length src.now) }
{
    let mut w = word;
    w[at..at + src.len()].copy_from_slice(src);
    w
}

// Payload.
impl ObjectWriter {
    // Stores the whole words of src, and holds the rest.
    fn store_words(self, g: Geometry, image: &mut [u8], f: Fuse, src: &[u8]) -> Ended<ObjectWriter>
        requires { (self.cursor ≤ 65540) × (length src.now ≤ 65536) }
        ensures image_after { ended_with result image.new ≡ run f (store_words g self src.now) image.old }
        ensures cursor_bound { IfOk result (λ x. x.0.cursor ≤ self.cursor + length src.now) }
    {
        let n = src.len() - src.len() % g.granularity.width();
        let block = self.object.location.block;
        let fuse = medium::write(g, image, f, block, self.data_at(g), &src[..n])?;
        Ok((self.held_back(n, &src[n..]), fuse))
    }

    // The held bytes and those of src, which are at most one word: it is stored if it is full.
    fn top_up(self, g: Geometry, image: &mut [u8], f: Fuse, src: &[u8]) -> Ended<ObjectWriter>
        requires { (self.cursor ≤ 65536) × (self.held + length src.now ≤ width_of g.granularity) }
        ensures image_after { ended_with result image.new ≡ run f (store_words g self (pending_of self src.now)) image.old }
        ensures cursor_bound { IfOk result (λ x. x.0.cursor ≤ 65540) }
    {
        let word = pasted(self.tail, self.held, src);
        let n = self.held + src.len();
        self.store_words(g, image, f, &word[..n])
    }

    // The held bytes and those of src, as far as they are whole words: the tail's word first, then the others.
    fn store(self, g: Geometry, image: &mut [u8], f: Fuse, src: &[u8]) -> Ended<ObjectWriter>
        requires cursor_bound { (self.cursor ≤ 65536) × (self.held < width_of g.granularity) }
        requires src_bound { (data_at g self + self.held + length src.now ≤ g.size) × (g.size ≤ 65536) }
        ensures { ended_with result image.new ≡ run f (put_pending g self (pending_of self src.now)) image.old }
    {
        if self.held == 0 {
            return self.store_words(g, image, f, src);
        }
        let left = g.granularity.width() - self.held;
        if src.len() < left {
            return self.top_up(g, image, f, src);
        }
        let (w, fuse) = self.top_up(g, image, f, &src[..left])?;
        w.store_words(g, image, fuse, &src[left..])
    }
}

// Size and mark.
impl ObjectWriter {
    // The held tail, padded to a word; with none nothing is stored.
    fn flush(self, g: Geometry, image: &mut [u8], f: Fuse) -> Ended<ObjectWriter>
        requires { (self.cursor ≤ 65536) × (self.held ≤ 4) }
        ensures image_after { ended_with result image.new ≡ run f (Rattle.writer.specs.Writer.flush g self) image.old }
        ensures cursor_bound { IfOk result (λ x. x.0.cursor ≤ 65540) }
    {
        let n = self.held;
        if n == 0 {
            return Ok((self.emptied(), f));
        }
        let block = self.object.location.block;
        let fuse = medium::write(g, image, f, block, self.data_at(g), &self.tail[..n])?;
        Ok((self.emptied(), fuse))
    }

    // The mark of a state.
    fn mark(
        self,
        g: Geometry,
        image: &mut [u8],
        f: Fuse,
        to: ObjectDataState,
    ) -> Ended<ObjectWriter>
        ensures { ended_with result image.new ≡ run f (marked g to self) image.old }
    {
        let (header, fuse) = self.object.set_state(g, image, f, to)?;
        Ok((self.with(header), fuse))
    }

    // The held tail, the size, then the mark.
    fn close(
        self,
        g: Geometry,
        image: &mut [u8],
        f: Fuse,
        to: ObjectDataState,
    ) -> Ended<ObjectWriter>
        requires { (self.cursor ≤ 65536) × (self.held ≤ 4) }
        ensures { ended_with result image.new ≡ run f (Rattle.writer.specs.Writer.close g to self) image.old }
    {
        let (w, f1) = self.flush(g, image, f)?;
        let (sized, f2) = w.object.set_payload_size(g, image, f1, w.cursor as u32)?;
        w.with(sized).mark(g, image, f2, to)
    }

    fn deleting(self, g: Geometry, image: &mut [u8], f: Fuse) -> Ended<ObjectWriter>
        requires { (self.cursor ≤ 65536) × (self.held ≤ 4) }
        ensures { ended_with result image.new ≡ run f (Rattle.writer.specs.Writer.deleting g self (rank_of self.object.state)) image.old }
    {
        match self.object.state.state() {
            ObjectState::Allocated => self.close(g, image, f, ObjectDataState::Deleted),
            ObjectState::Finalized => self.mark(g, image, f, ObjectDataState::Deleted),
            ObjectState::Free | ObjectState::Deleted => Ok((self, f)),
        }
    }
}
