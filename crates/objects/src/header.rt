// The header of an object: its state, its payload size and its place.
ghost use Rattle.std.specs.Prelude.{◌≡◌, ◌+◌, ◌≤◌, ◌<◌, length};
ghost use Rattle.medium.specs.Operation.{run, ended_with};
ghost use Rattle.medium.specs.Refusal.{answer_of, code_of};
ghost use Rattle.objects.specs.Numbers.{unset_of};
ghost use Rattle.objects.specs.Header.{small_header, header_at, sized_at, payload_size_of, payload_of, set_state, stay_of, update_state, with_size, sizable_of, set_payload_size};

use crate::location;
use crate::location::ObjectLocation;
use crate::state::{CompositeObjectState, ObjectDataState, ObjectState};
use medium::fuse::{Ended, Fuse};
use medium::geometry::Geometry;
use medium::refusal::Refusal;

#[derive(Clone, Copy, Debug, PartialEq, Eq)]
pub struct ObjectHeader {
    pub state: CompositeObjectState,
    pub size: u32,
    pub location: ObjectLocation,
}

// What an unset size field of s bytes reads as.
pub fn unset(s: u8) -> u32
    ensures { result ≡ unset_of s }
{
    match s {
        1 => 255,
        2 => 65535,
        3 => 16777215,
        _ => 0,
    }
}

impl ObjectHeader {
    #[tactic(auto, unfolding(crate::specs::Header::sized_at))]
    fn read_size(
        g: Geometry,
        image: &[u8],
        at: ObjectLocation,
        state: CompositeObjectState,
        raw: &mut [u8],
    ) -> Result<ObjectHeader, Refusal>
        requires raw_len { length raw.old ≡ g.s }
        requires s_bound { g.s ≤ 3 }
        ensures result_value { answer_of result ≡ sized_at g at state image.now }
        ensures small_header { small_header result }
    {
        let field = g.granularity.size_at();
        medium::read(g, image, at.block, (at.offset as usize) + field, raw)?;
        let n = location::number(raw);
        Ok(ObjectHeader {
            state: state,
            size: n as u32,
            location: at,
        })
    }

    // The state, and then the size.
    #[tactic(auto, unfolding(crate::specs::Header::header_at))]
    pub fn read(g: Geometry, image: &[u8], at: ObjectLocation) -> Result<ObjectHeader, Refusal>
        ensures result_value { answer_of result ≡ header_at g at image.now }
        ensures small_header { small_header result }
    {
        let state = CompositeObjectState::read(g, image, at)?;
        let s = g.s as usize;
        let mut buffer = [0u8; 4];
        ObjectHeader::read_size(g, image, at, state, &mut buffer[..s])
    }

    // The payload size: none where the field is all FF.
    #[tactic(auto, unfolding(crate::specs::Header::payload_size_of))]
    pub fn payload_size(self, s: u8) -> Option<u32>
        ensures { result ≡ payload_size_of s self }
    {
        if self.size == unset(s) {
            return None;
        }
        Some(self.size)
    }

    // The payload size, taken as 0 where it is unset.
    #[tactic(auto, unfolding(crate::specs::Header::payload_of))]
    pub fn payload(self, s: u8) -> usize
        ensures value { result ≡ payload_of s self }
        ensures upper_bound { result ≤ 4294967295 }
    {
        if self.size == unset(s) {
            return 0;
        }
        self.size as usize
    }

    // Stores the mark of a state that lies ahead. A state that is there already stores nothing.
    pub fn set_state(
        self,
        g: Geometry,
        image: &mut [u8],
        f: Fuse,
        to: ObjectDataState,
    ) -> Ended<ObjectHeader>
        ensures { ended_with result image.new ≡ run f (set_state g self to) image.old }
    {
        f.beside(medium::geometry::check(g, image.len()))?;
        let CompositeObjectState::Allocated(t, d) = self.state else {
            return f.beside(Err(Refusal::InvalidOperation));
        };
        // By their ranks, since the definitions compare these.
        let from = d.rank();
        let ahead = to.rank();
        if from == ahead {
            return Ok((self, f));
        }
        if ahead < from {
            return f.beside(Err(Refusal::InvalidOperation));
        }
        let at = self.location;
        let k = g.granularity;
        let mark_at = (at.offset as usize) + to.mark_at(k);
        let fuse = medium::write(g, image, f, at.block, mark_at, &[to.mark(k)])?;
        let header = ObjectHeader {
            state: CompositeObjectState::Allocated(t, to),
            size: self.size,
            location: at,
        };
        Ok((header, fuse))
    }
}

impl ObjectHeader {
    // Whether the state may stay, where the target has no mark: none is set back to Free, and only an Allocated one is left Allocated.
    #[tactic(auto, unfolding(crate::specs::Header::stay_of))]
    fn stay(self, g: Geometry, room: usize, to: ObjectState) -> Result<(), Refusal>
        ensures { code_of result ≡ stay_of g self room to }
    {
        medium::geometry::check(g, room)?;
        if to == ObjectState::Free {
            return Err(Refusal::RustPanic);
        }
        if !self.state.is(ObjectState::Allocated) {
            return Err(Refusal::InvalidOperation);
        }
        Ok(())
    }

    // Goes to a state that lies ahead. The present state stores nothing; backwards is 4, and Free is 9.
    #[tactic(auto, unfolding(crate::specs::Header::update_state))]
    pub fn update_state(
        self,
        g: Geometry,
        image: &mut [u8],
        f: Fuse,
        to: ObjectState,
    ) -> Ended<ObjectHeader>
        ensures { ended_with result image.new ≡ run f (update_state g self to) image.old }
    {
        match to {
            ObjectState::Free | ObjectState::Allocated => {
                f.beside(self.stay(g, image.len(), to))?;
                Ok((self, f))
            }
            ObjectState::Finalized => self.set_state(g, image, f, ObjectDataState::Valid),
            ObjectState::Deleted => self.set_state(g, image, f, ObjectDataState::Deleted),
        }
    }

    fn with_size(self, size: u32) -> ObjectHeader
        ensures { result ≡ with_size self size }
    {
        ObjectHeader { size: size, ..self }
    }

    // Whether a size may be stored: 6, 7, or 4 where one is set already.
    #[tactic(auto, unfolding(crate::specs::Header::sizable_of))]
    fn may_set_size(self, g: Geometry, room: usize) -> Result<(), Refusal>
        ensures { code_of result ≡ sizable_of g self room }
    {
        medium::geometry::check(g, room)?;
        if self.size != unset(g.s) {
            return Err(Refusal::InvalidOperation);
        }
        Ok(())
    }

    // Stores the low bytes of a size that is not set yet. The header holds the whole number.
    pub fn set_payload_size(
        self,
        g: Geometry,
        image: &mut [u8],
        f: Fuse,
        size: u32,
    ) -> Ended<ObjectHeader>
        ensures { ended_with result image.new ≡ run f (set_payload_size g self size) image.old }
    {
        f.beside(self.may_set_size(g, image.len()))?;
        let at = self.location;
        let field = (at.offset as usize) + g.granularity.size_at();
        let high = size / 256;
        let raw = [
            (size % 256) as u8,
            (high % 256) as u8,
            (high / 256 % 256) as u8,
        ];
        let s = g.s as usize;
        let fuse = medium::write(g, image, f, at.block, field, &raw[..s])?;
        Ok((self.with_size(size), fuse))
    }
}
