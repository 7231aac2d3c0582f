// The geometry record: sixteen bytes that say how an image is laid out.
//
// It holds six numbers, granularity, the two field widths, the strict mark, block size and block count, and then four bytes 0. What it says
// may still break a rule of the geometry: the medium tests those.
#![tactic(auto)]

ghost use Rattle.std.specs.Prelude.{◌≡◌, ◌+◌, ◌≤◌, length};
ghost use Rattle.medium.specs.Refusal.{answer_of};
ghost use Rattle.geometry_record.specs.GeometryRecord.{word_at, well_formed, numbers_of, recorded};

use medium::geometry;
use medium::geometry::Geometry;
use medium::refusal::Refusal;

// The geometry of a record, or 6: another length, one of the last four bytes not 0, or no granularity.
#[tactic(auto, unfolding(crate::specs::GeometryRecord::recorded), using(crate::proofs::Shape::sixteen))]
pub fn geometry_of(raw: &[u8]) -> Result<Geometry, Refusal>
    ensures { answer_of result ≡ recorded raw.now }
{
    if !is_well_formed(raw) {
        return Err(Refusal::BadGeometry);
    }
    Geometry::try_from(numbers(raw))
}

// Sixteen bytes, with the last four 0.
#[tactic(auto, unfolding(crate::specs::GeometryRecord::well_formed))]
fn is_well_formed(raw: &[u8]) -> bool
    ensures { result ≡ well_formed raw.now }
{
    if raw.len() != 16 {
        return false;
    }
    word(raw, 12) == 0
}

fn numbers(raw: &[u8]) -> [u32; 6]
    requires { length raw.now ≡ 16 }
    ensures { result ≡ numbers_of raw.now }
{
    let size = word(raw, 4);
    let count = word(raw, 8);
    [
        wide(raw[0]),
        wide(raw[1]),
        wide(raw[2]),
        wide(raw[3]),
        size,
        count,
    ]
}

fn wide(byte: u8) -> u32
    ensures { result ≡ byte }
{
    byte as u32
}

// Four bytes from a place on, low byte first.
#[tactic(auto, unfolding(crate::specs::GeometryRecord::word_at))]
fn word(raw: &[u8], at: usize) -> u32
    requires { at + 4 ≤ length raw.now }
    ensures { result ≡ word_at raw.now at }
{
    u32::from_le_bytes([raw[at], raw[at + 1], raw[at + 2], raw[at + 3]])
}
