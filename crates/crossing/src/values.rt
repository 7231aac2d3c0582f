// Values that come in as numbers: a header, alone or with a state to go to, a reader, a metadata header and an iterator. Numbers that no
// value has give 4. Functions and no TryFrom, since neither that trait nor the types are of this crate.
ghost use Rattle.std.specs.Prelude.{◌≡◌};
ghost use Rattle.medium.specs.Refusal.{answer_of};
ghost use Rattle.crossing.specs.Values.{target_of, data_state_of, state_of, header_from, header_of, reader_of, metadata_of, iterator_of};

use medium::refusal::Refusal;
use objects::header::ObjectHeader;
use objects::iterator::ObjectIterator;
use objects::location::ObjectLocation;
use objects::metadata::MetadataObjectHeader;
use objects::reader::ObjectReader;
use objects::state::{CompositeObjectState, ObjectDataState, ObjectState};
use objects::types::ObjectType;

// The state of an object of a type: 1 to 3.
#[tactic(auto, unfolding(crate::specs::Values::data_state_of))]
fn data_state_of(t: ObjectType, state: u32) -> Result<CompositeObjectState, Refusal>
    ensures { answer_of result ≡ data_state_of t state }
{
    match state {
        1 => Ok(CompositeObjectState::Allocated(t, ObjectDataState::Untrusted)),
        2 => Ok(CompositeObjectState::Allocated(t, ObjectDataState::Valid)),
        3 => Ok(CompositeObjectState::Allocated(t, ObjectDataState::Deleted)),
        _ => Err(Refusal::InvalidOperation),
    }
}

// What a type number and a state number say together: only Free has no type, and it has none.
#[tactic(auto, unfolding(crate::specs::Values::state_of))]
pub fn state_of(kind: u32, state: u32) -> Result<CompositeObjectState, Refusal>
    ensures { answer_of result ≡ state_of kind state }
{
    if 255 < kind {
        return Err(Refusal::InvalidOperation);
    }
    match ObjectType::parse(kind as u8) {
        Ok(Some(t)) => data_state_of(t, state),
        Ok(None) => match state {
            0 => Ok(CompositeObjectState::Free),
            _ => Err(Refusal::InvalidOperation),
        },
        Err(_) => Err(Refusal::InvalidOperation),
    }
}

// A header of five numbers.
#[tactic(auto, unfolding(crate::specs::Values::header_from))]
pub fn header_from(
    kind: u32,
    state: u32,
    size: u32,
    block: u32,
    offset: u32,
) -> Result<ObjectHeader, Refusal>
    ensures { answer_of result ≡ header_from kind state size block offset }
{
    let st = state_of(kind, state)?;
    Ok(ObjectHeader {
        state: st,
        size: size,
        location: ObjectLocation {
            block: block,
            offset: offset,
        },
    })
}

pub fn header_of(n: &[u32; 5]) -> Result<ObjectHeader, Refusal>
    ensures { answer_of result ≡ header_of n.now }
{
    header_from(n[0], n[1], n[2], n[3], n[4])
}

// A header and the state that its object is to go to.
#[derive(Clone, Copy, Debug, PartialEq, Eq)]
pub struct Target {
    pub header: ObjectHeader,
    pub state: ObjectState,
}

// What the numbers of a header and a number from 0 to 3 say.
#[tactic(auto, unfolding(crate::specs::Values::target_of, crate::specs::Values::object_state_of))]
pub fn target_of(n: &[u32; 5], state: u8) -> Result<Target, Refusal>
    ensures { answer_of result ≡ target_of n.now state }
{
    let h = header_of(n)?;
    let to = match state {
        0 => ObjectState::Free,
        1 => ObjectState::Allocated,
        2 => ObjectState::Finalized,
        3 => ObjectState::Deleted,
        _ => return Err(Refusal::InvalidOperation),
    };
    Ok(Target {
        header: h,
        state: to,
    })
}

pub fn iterator_of(n: &[u32; 2]) -> ObjectIterator
    ensures { result ≡ iterator_of n.now }
{
    ObjectIterator {
        location: ObjectLocation {
            block: n[0],
            offset: n[1],
        },
    }
}

// A header and a cursor of at most 65,536.
#[tactic(auto, unfolding(crate::specs::Values::reader_of))]
pub fn reader_of(n: &[u32; 6]) -> Result<ObjectReader, Refusal>
    ensures { answer_of result ≡ reader_of n.now }
{
    let h = header_from(n[0], n[1], n[2], n[3], n[4])?;
    let cursor = n[5];
    if 65536 < cursor {
        return Err(Refusal::InvalidOperation);
    }
    Ok(ObjectReader {
        object: h,
        cursor: cursor as usize,
    })
}

// A header, the path's hash, the name's location and a cursor of at most 65,536.
#[tactic(auto, unfolding(crate::specs::Values::metadata_of))]
pub fn metadata_of(n: &[u32; 9]) -> Result<MetadataObjectHeader, Refusal>
    ensures { answer_of result ≡ metadata_of n.now }
{
    let h = header_from(n[0], n[1], n[2], n[3], n[4])?;
    let cursor = n[8];
    if 65536 < cursor {
        return Err(Refusal::InvalidOperation);
    }
    Ok(MetadataObjectHeader {
        object: h,
        hash: n[5],
        name: ObjectLocation {
            block: n[6],
            offset: n[7],
        },
        cursor: cursor as usize,
    })
}
