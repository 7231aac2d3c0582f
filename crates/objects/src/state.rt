// The state of an object: what its type byte and its marks say together.
ghost use Rattle.std.specs.Prelude.{◌≡◌, length, eqb};
ghost use Rattle.medium.specs.Refusal.{answer_of};
ghost use Rattle.medium.specs.Granularity.{size_at};
ghost use Rattle.objects.specs.Types.{type_number, mark_of, pair_of, marks_of, rank_to, rank_of, state_of, rank_in, mark_at, mark_byte, state_in};
ghost use Rattle.objects.specs.Header.{state_at, allocatable_of};

use crate::location::ObjectLocation;
use crate::types::ObjectType;
use medium::geometry::Geometry;
use medium::granularity::Granularity;
use medium::refusal::Refusal;

#[derive(Clone, Copy, Debug, PartialEq, Eq)]
pub enum ObjectDataState {
    Untrusted,
    Valid,
    Deleted,
}

// No Option: Free and Allocated are the Rust's names, and a free place is a state of its own.
#[derive(Clone, Copy, Debug, PartialEq, Eq)]
pub enum CompositeObjectState {
    Free,
    Allocated(ObjectType, ObjectDataState),
}

#[derive(Clone, Copy, Debug, PartialEq, Eq)]
pub enum ObjectState {
    Free,
    Allocated,
    Finalized,
    Deleted,
}

impl ObjectState {
    // How far an object has come: 0 to 3.
    pub fn rank(self) -> u8
        ensures { result ≡ rank_in self }
    {
        match self {
            ObjectState::Free => 0,
            ObjectState::Allocated => 1,
            ObjectState::Finalized => 2,
            ObjectState::Deleted => 3,
        }
    }
}

impl ObjectDataState {
    pub fn rank(self) -> u8
        ensures { result ≡ rank_to self }
    {
        match self {
            ObjectDataState::Untrusted => 1,
            ObjectDataState::Valid => 2,
            ObjectDataState::Deleted => 3,
        }
    }

    // One state byte, as under Bit.
    #[tactic(auto, unfolding(crate::specs::Types::mark_of))]
    fn parse(b: u8) -> Result<ObjectDataState, Refusal>
        ensures { answer_of result ≡ mark_of b }
    {
        match b {
            0xFF => Ok(ObjectDataState::Untrusted),
            0xF0 => Ok(ObjectDataState::Valid),
            0x00 => Ok(ObjectDataState::Deleted),
            _ => Err(Refusal::FsCorrupted),
        }
    }

    // Two marks, as under either Word.
    #[tactic(auto, unfolding(crate::specs::Types::pair_of))]
    fn parse_pair(finished: u8, deleted: u8) -> Result<ObjectDataState, Refusal>
        ensures { answer_of result ≡ pair_of finished deleted }
    {
        match (finished, deleted) {
            (0xFF, 0xFF) => Ok(ObjectDataState::Untrusted),
            (0x00, 0xFF) => Ok(ObjectDataState::Valid),
            (0x00, 0x00) => Ok(ObjectDataState::Deleted),
            _ => Err(Refusal::FsCorrupted),
        }
    }

    // What the marks say.
    #[tactic(auto, unfolding(crate::specs::Types::marks_of))]
    pub fn of_marks(k: Granularity, finished: u8, deleted: u8) -> Result<ObjectDataState, Refusal>
        ensures { answer_of result ≡ marks_of k finished deleted }
    {
        match k {
            Granularity::Bit => ObjectDataState::parse(finished),
            Granularity::Word1 => ObjectDataState::parse_pair(finished, deleted),
            Granularity::Word4 => ObjectDataState::parse_pair(finished, deleted),
        }
    }

    // Where the mark of a state stands in the header.
    pub fn mark_at(self, k: Granularity) -> usize
        ensures { result ≡ mark_at k self }
    {
        match self {
            ObjectDataState::Untrusted => k.finish_at(),
            ObjectDataState::Valid => k.finish_at(),
            ObjectDataState::Deleted => k.delete_at(),
        }
    }

    // The byte that is stored there.
    pub fn mark(self, k: Granularity) -> u8
        ensures { result ≡ mark_byte k self }
    {
        match self {
            ObjectDataState::Untrusted => 0xFF,
            ObjectDataState::Valid => k.finish_mark(),
            ObjectDataState::Deleted => 0x00,
        }
    }
}

impl CompositeObjectState {
    pub fn rank(self) -> u8
        ensures { result ≡ rank_of self }
    {
        match self {
            CompositeObjectState::Free => 0,
            CompositeObjectState::Allocated(_, d) => d.rank(),
        }
    }

    pub fn state(self) -> ObjectState
        ensures { result ≡ state_of self }
    {
        match self {
            CompositeObjectState::Free => ObjectState::Free,
            CompositeObjectState::Allocated(_, d) => match d {
                ObjectDataState::Untrusted => ObjectState::Allocated,
                ObjectDataState::Valid => ObjectState::Finalized,
                ObjectDataState::Deleted => ObjectState::Deleted,
            },
        }
    }

    // The byte of the type, and FF where no object is there.
    pub fn type_byte(self) -> u8
        ensures { result ≡ type_number self }
    {
        match self {
            CompositeObjectState::Free => ObjectType::FREE,
            CompositeObjectState::Allocated(t, _) => u8::from(t),
        }
    }

    // Whether an object has come this far, and no further.
    pub fn is(self, state: ObjectState) -> bool
        ensures { result ≡ eqb (rank_of self) (rank_in state) }
    {
        self.state() == state
    }

    // The bytes before the size field.
    #[tactic(auto, unfolding(crate::specs::Types::state_in))]
    fn parse(k: Granularity, raw: &[u8]) -> Result<CompositeObjectState, Refusal>
        requires { length raw.now ≡ size_at k }
        ensures { answer_of result ≡ state_in k raw.now }
    {
        let Some(kind) = ObjectType::parse(raw[0])? else {
            return Ok(CompositeObjectState::Free);
        };
        let f = k.finish_at();
        let d = k.delete_at();
        let x = ObjectDataState::of_marks(k, raw[f], raw[d])?;
        Ok(CompositeObjectState::Allocated(kind, x))
    }

    #[tactic(auto, unfolding(crate::specs::Header::state_at))]
    fn read_into(
        g: Geometry,
        image: &[u8],
        at: ObjectLocation,
        raw: &mut [u8],
    ) -> Result<CompositeObjectState, Refusal>
        requires { length raw.old ≡ size_at g.granularity }
        ensures { answer_of result ≡ state_at g at image.now }
    {
        medium::read(g, image, at.block, at.offset as usize, raw)?;
        CompositeObjectState::parse(g.granularity, raw)
    }

    // The state of the object at a place.
    pub fn read(
        g: Geometry,
        image: &[u8],
        at: ObjectLocation,
    ) -> Result<CompositeObjectState, Refusal>
        ensures { answer_of result ≡ state_at g at image.now }
    {
        let n = g.granularity.size_at();
        let mut buffer = [0u8; Granularity::LONGEST_STATE];
        CompositeObjectState::read_into(g, image, at, &mut buffer[..n])
    }

    // Whether an object of type t may be allocated over this state: over Free, or over Allocated of the same type.
    #[tactic(auto, unfolding(crate::specs::Header::allocatable_of))]
    pub fn allocatable(self, t: ObjectType) -> Result<(), Refusal>
        ensures { answer_of result ≡ allocatable_of t self }
    {
        let CompositeObjectState::Allocated(u, d) = self else {
            return Ok(());
        };
        if d != ObjectDataState::Untrusted {
            return Err(Refusal::InvalidOperation);
        }
        if t != u {
            return Err(Refusal::InvalidOperation);
        }
        Ok(())
    }
}
