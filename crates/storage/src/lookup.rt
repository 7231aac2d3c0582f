// A file found by its path and the path's hash.
ghost use Rattle.std.specs.Prelude.{◌≡◌, ◌≤◌, length};
ghost use Rattle.medium.specs.Refusal.{answer_of};
ghost use Rattle.storage.specs.Lookup.{same_name, is_name, is_named};

use crate::visit::Visitor;
use blocks::header::BlockType;
use medium::geometry::Geometry;
use medium::refusal::Refusal;
use objects::header::ObjectHeader;
use objects::location::ObjectLocation;
use objects::reader::ObjectReader;
use objects::{metadata, payload};

// How many bytes of a name are compared at a time, as in the Rust: a name that runs past its block can differ before it does.
const TURN: usize = 16;

// Whether the payload of an object begins with the bytes of a path.
fn is_same(g: Geometry, image: &[u8], h: ObjectHeader, path: &[u8]) -> Result<bool, Refusal>
    requires { length path.now ≤ 4294967295 }
    ensures { answer_of result ≡ same_name g h path.now image.now }
{
    let block = h.location.block;
    let mut at = payload::at(g, h);
    for turn in path.chunks(TURN) {
        medium::reach(g, image.len(), block, at, turn.len())?;
        let bytes = medium::lend(g, image, block, at, turn.len());
        if !payload::is_equal(bytes, turn) {
            return Ok(false);
        }
        at += turn.len();
    }
    Ok(true)
}

// Whether the name at a place is a path.
#[tactic(auto, unfolding(crate::specs::Lookup::is_name), using(medium::proofs::Refusals::passed))]
fn is_name(g: Geometry, image: &[u8], at: ObjectLocation, path: &[u8]) -> Result<bool, Refusal>
    ensures { answer_of result ≡ is_name g path.now at image.now }
{
    let r = ObjectReader::new(g, image, at, false)?;
    if r.object.payload(g.s) != path.len() {
        return Ok(false);
    }
    is_same(g, image, r.object, path)
}

// Whether a metadata object has this hash and this name.
#[tactic(auto, unfolding(crate::specs::Lookup::is_named), using(medium::proofs::Refusals::passed))]
fn is_named(
    g: Geometry,
    image: &[u8],
    h: ObjectHeader,
    path: &[u8],
    hash: u32,
) -> Result<bool, Refusal>
    ensures { answer_of result ≡ is_named g path.now hash h image.now }
{
    let m = metadata::read(g, image, h)?;
    if m.hash != hash {
        return Ok(false);
    }
    is_name(g, image, m.name, path)
}

// Where the metadata object of the first file of this path is, or 13.
pub fn lookup(g: Geometry, image: &[u8], path: &[u8], hash: u32) -> Result<ObjectLocation, Refusal>
    ensures { answer_of result ≡ Rattle.storage.specs.Lookup.lookup g path.now hash image.now }
{
    let mut v = Visitor::new(g);
    while let Some((h, w)) = v.next(g, image, BlockType::Metadata)? {
        if is_named(g, image, h, path, hash)? {
            return Ok(h.location);
        }
        v = w;
    }
    Err(Refusal::NotFound)
}
