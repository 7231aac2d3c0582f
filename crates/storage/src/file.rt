// A file that was found: how long it is, and its bytes from a position on.
ghost use Rattle.std.specs.Prelude.{◌≡◌, ◌≤◌, ◌<◌, length};
ghost use Rattle.medium.specs.Refusal.{answer_of};
ghost use Rattle.storage.specs.File.{Places, after_place, places_of, gather_at, read_file, put_into, count_of, file_size};
ghost use Rattle.storage.specs.Pieces.{piece_then, FitsAt, next_then, Fits, IsDone};

use medium::geometry::Geometry;
use medium::refusal::Refusal;
use objects::location::ObjectLocation;
use objects::metadata::MetadataObjectHeader;
use objects::reader::ObjectReader;
use objects::{metadata, payload};

// What a data object gives: where its bytes stand, how many they are, and how many are to be skipped behind it.
#[derive(Clone, Copy, Debug, PartialEq, Eq)]
struct Piece {
    block: u32,
    at: usize,
    len: usize,
    skip: usize,
}

// What the object at a place gives of n bytes: none where all of it is skipped.
fn piece_at(
    g: Geometry,
    image: &[u8],
    at: ObjectLocation,
    skip: usize,
    n: usize,
) -> Result<Piece, Refusal>
    requires { 0 < n }
    ensures result_value { (rest : Places) → piece_then g image.now n rest result ≡ gather_at g (after_place at rest) skip n image.now }
    ensures fits_at { FitsAt g image.now n result }
{
    let r = ObjectReader::new(g, image, at, false)?;
    let block = r.object.location.block;
    let size = r.object.payload(g.s);
    if size <= skip {
        return Ok(Piece {
            block: block,
            at: 0,
            len: 0,
            skip: skip - size,
        });
    }
    let from = payload::at(g, r.object) + skip;
    let len = n.min(size - skip);
    medium::reach(g, image.len(), block, from, len)?;
    Ok(Piece {
        block: block,
        at: from,
        len: len,
        skip: 0,
    })
}

// What the next data object gives of n bytes, with the list of locations behind it; none at the list's end.
#[tactic(auto, using(medium::proofs::Refusals::passed, crate::proofs::Pieces::places_by_lem, crate::proofs::Pieces::gather_end, crate::proofs::Pieces::fits_on))]
fn next_piece(
    g: Geometry,
    image: &[u8],
    m: MetadataObjectHeader,
    skip: usize,
    n: usize,
) -> Result<Option<(Piece, MetadataObjectHeader)>, Refusal>
    requires le_size { 2 ≤ g.size }
    requires n_nonzero { 0 < n }
    ensures result_value { next_then g image.now n result ≡ gather_at g (places_of g m image.now) skip n image.now }
    ensures fits { Fits g image.now m n result }
{
    let Some((at, rest)) = m.next_object_location(g, image)? else {
        return Ok(None);
    };
    let piece = piece_at(g, image, at, skip, n)?;
    Ok(Some((piece, rest)))
}

// How many bytes a read of n would give: the test before the first byte is copied.
fn measure(
    g: Geometry,
    image: &[u8],
    m: MetadataObjectHeader,
    position: usize,
    n: usize,
) -> Result<usize, Refusal>
    requires { 2 ≤ g.size }
    ensures { answer_of result ≡ count_of (gather_at g (places_of g m image.now) position n image.now) }
{
    let mut rest = m;
    let mut skip = position;
    let mut taken = 0;
    // No range, here and below: a step is as many bytes as the object has.
    while taken < n {
        let Some((piece, next)) = next_piece(g, image, rest, skip, n - taken)? else {
            return Ok(taken);
        };
        rest = next;
        skip = piece.skip;
        taken += piece.len;
    }
    Ok(taken)
}

// Copies what a read gives, where the test found nothing to refuse.
fn fill(g: Geometry, image: &[u8], m: MetadataObjectHeader, position: usize, buffer: &mut [u8])
    requires le_size { 2 ≤ g.size }
    requires done { IsDone (gather_at g (places_of g m image.now) position (length buffer.old) image.now) }
    ensures { buffer.new ≡ put_into (gather_at g (places_of g m image.now) position (length buffer.old) image.now) buffer.old }
{
    let mut rest = m;
    let mut skip = position;
    let mut taken = 0;
    while taken < buffer.len() {
        let left = buffer.len() - taken;
        let Ok(Some((piece, next))) = next_piece(g, image, rest, skip, left) else {
            return;
        };
        let end = taken + piece.len;
        let bytes = medium::lend(g, image, piece.block, piece.at, piece.len);
        buffer[taken..end].copy_from_slice(bytes);
        rest = next;
        skip = piece.skip;
        taken = end;
    }
}

// The bytes from a position on of the file whose metadata object is at a place, into the buffer's first bytes: how many they are.
#[tactic(auto, unfolding(crate::specs::File::read_file), using(medium::proofs::Refusals::passed, crate::proofs::Pieces::metadata_big, crate::proofs::Pieces::count_done, crate::proofs::Pieces::count_refused))]
pub fn read(
    g: Geometry,
    image: &[u8],
    at: ObjectLocation,
    position: usize,
    buffer: &mut [u8],
) -> Result<usize, Refusal>
    ensures result_value { answer_of result ≡ count_of (read_file g at position (length buffer.old) image.now) }
    ensures buffer_after { buffer.new ≡ put_into (read_file g at position (length buffer.old) image.now) buffer.old }
{
    let m = metadata::read_at(g, image, at)?;
    let n = measure(g, image, m, position, buffer.len())?;
    fill(g, image, m, position, buffer);
    Ok(n)
}

// How long that file is.
pub fn size(g: Geometry, image: &[u8], at: ObjectLocation) -> Result<usize, Refusal>
    ensures { answer_of result ≡ file_size g at image.now }
{
    let mut rest = metadata::read_at(g, image, at)?;
    let mut total: usize = 0;
    while let Some((l, next)) = rest.next_object_location(g, image)? {
        let r = ObjectReader::new(g, image, l, false)?;
        total += r.object.payload(g.s);
        rest = next;
    }
    Ok(total)
}
