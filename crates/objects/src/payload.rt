// The payload of an object: where it starts, whether it can be read, its bytes, and whether two are the same.
ghost use Rattle.std.specs.Prelude.{◌≡◌, ◌≤◌};
ghost use Rattle.medium.specs.Medium.{lent};
ghost use Rattle.medium.specs.Refusal.{code_of};
ghost use Rattle.objects.specs.Payload.{payload_at, payload_readable, read_payload, equal, same_payload};

use crate::header::ObjectHeader;
use medium::geometry::Geometry;
use medium::refusal::Refusal;

// Where it starts in its block.
pub fn at(g: Geometry, h: ObjectHeader) -> usize
    ensures value { result ≡ payload_at g h }
    ensures upper_bound { result ≤ 4294967566 }
{
    (h.location.offset as usize) + g.granularity.object_header(g.s)
}

// Whether it can be read.
#[tactic(auto, unfolding(crate::specs::Payload::payload_readable))]
pub fn reach(g: Geometry, room: usize, h: ObjectHeader) -> Result<(), Refusal>
    ensures { code_of result ≡ payload_readable g h room }
{
    medium::reach(g, room, h.location.block, at(g, h), h.payload(g.s))
}

// Its bytes, and none where it cannot be read.
#[tactic(auto, unfolding(crate::specs::Payload::read_payload))]
pub fn lend(g: Geometry, image: &[u8], h: ObjectHeader) -> &[u8]
    ensures { result.now ≡ lent (read_payload g h image.now) }
{
    medium::lend(g, image, h.location.block, at(g, h), h.payload(g.s))
}

pub fn is_equal(a: &[u8], b: &[u8]) -> bool
    ensures { result ≡ equal a.now b.now }
{
    a == b
}

// Whether both payloads can be read, and are the same.
pub fn is_same(g: Geometry, image: &[u8], a: ObjectHeader, b: ObjectHeader) -> bool
    ensures { result ≡ same_payload g a b image.now }
{
    if reach(g, image.len(), a).is_err() {
        return false;
    }
    if reach(g, image.len(), b).is_err() {
        return false;
    }
    is_equal(lend(g, image, a), lend(g, image, b))
}
