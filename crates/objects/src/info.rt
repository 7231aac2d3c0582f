// An object that is there: what the Rust calls its info is its header.
ghost use Rattle.std.specs.Prelude.{◌≡◌, ◌≤◌, ◌<◌};
ghost use Rattle.medium.specs.Operation.{run, ended_with};
ghost use Rattle.medium.specs.Refusal.{answer_of};
ghost use Rattle.objects.specs.Header.{set_state};
ghost use Rattle.objects.specs.Info.{info_answer, small_info, info_at, total_of, span_of, size_of_object};
ghost use Rattle.objects.specs.declared.state.ObjectDataState.TheVariants.{Valid, Deleted};

use crate::header::ObjectHeader;
use crate::location::ObjectLocation;
use crate::state::{CompositeObjectState, ObjectDataState};
use medium::fuse::{Ended, Fuse};
use medium::geometry::Geometry;
use medium::granularity::Granularity;
use medium::refusal::Refusal;

// The object at a place, if one is there.
#[tactic(auto, unfolding(crate::specs::Info::info_at))]
pub fn read(g: Geometry, image: &[u8], at: ObjectLocation) -> Result<Option<ObjectHeader>, Refusal>
    ensures result_value { info_answer result ≡ info_at g at image.now }
    ensures small_info { small_info result }
{
    let header = ObjectHeader::read(g, image, at)?;
    match header.state {
        CompositeObjectState::Free => Ok(None),
        CompositeObjectState::Allocated(_, _) => Ok(Some(header)),
    }
}

// Header and payload, of a size field of s bytes.
#[tactic(auto, unfolding(crate::specs::Info::total_of))]
pub fn total(h: ObjectHeader, k: Granularity, s: u8) -> usize
    ensures value { result ≡ total_of k s h }
    ensures upper_bound { result ≤ 4294967566 }
{
    k.object_header(s) + h.payload(s)
}

#[tactic(auto, unfolding(crate::specs::Info::size_of_object))]
pub fn total_size(g: Geometry, h: ObjectHeader) -> Result<usize, Refusal>
    ensures { answer_of result ≡ size_of_object g h }
{
    medium::geometry::fit(g)?;
    Ok(total(h, g.granularity, g.s))
}

pub fn finalize(g: Geometry, image: &mut [u8], f: Fuse, h: ObjectHeader) -> Ended<ObjectHeader>
    ensures { ended_with result image.new ≡ run f (set_state g h Valid) image.old }
{
    h.set_state(g, image, f, ObjectDataState::Valid)
}

pub fn delete(g: Geometry, image: &mut [u8], f: Fuse, h: ObjectHeader) -> Ended<ObjectHeader>
    ensures { ended_with result image.new ≡ run f (set_state g h Deleted) image.old }
{
    h.set_state(g, image, f, ObjectDataState::Deleted)
}

// The room that an object takes in its block: the total, aligned up. The size is one that a size field can say.
pub(crate) fn span(h: ObjectHeader, k: Granularity, s: u8) -> usize
    requires { h.size < 16777216 }
    ensures { result ≡ span_of k s h }
{
    k.align(total(h, k, s) as u32)
}
