// Bytes that a call fills: a read of the medium, and a location's.
ghost use Rattle.std.specs.Prelude.{◌≡◌, ◌≤◌, length};
ghost use Rattle.medium.specs.Medium.{read_at};
ghost use Rattle.objects.specs.Location.{location_length, into_bytes};
ghost use Rattle.crossing.specs.Crossing.{told, telling, telling_by, plain, two, bytes_out};

use medium::geometry::Geometry;
use medium::{geometry, refusal};
use objects::location::ObjectLocation;

// A range of one block, over the whole buffer.
pub(crate) fn read(g: Geometry, image: &[u8], block: u32, offset: u32, buffer: &mut [u8]) -> u8
    ensures { told result buffer.new ≡ telling plain buffer.old (read_at g block offset (length buffer.old) image.now) }
{
    refusal::number(medium::read(g, image, block, offset as usize, buffer))
}

// The bytes of a location over the first of six, and how many.
#[tactic(auto, unfolding(crossing::specs::Crossing::telling_by), using(crate::proofs::Buffers::into_stop, medium::proofs::Refusals::not_done))]
pub(crate) fn location(g: Geometry, at: ObjectLocation, bytes: &mut [u8; 6], len: &mut u64) -> u8
    ensures { told result (two bytes.new len.new) ≡ telling_by bytes_out (two bytes.old len.old) (into_bytes g at (location_length g)) }
{
    if let Err(e) = geometry::fit(g) {
        return e.number();
    }
    let n = (g.c as usize) + (g.s as usize);
    first(g, at, n, bytes, len)
}

// The same over the first n of a lent slice.
fn first(g: Geometry, at: ObjectLocation, n: usize, bytes: &mut [u8], len: &mut u64) -> u8
    requires { n ≤ length bytes.old }
    ensures { told result (two bytes.new len.new) ≡ telling_by bytes_out (two bytes.old len.old) (into_bytes g at n) }
{
    match at.into_bytes(g, &mut bytes[..n]) {
        Ok(()) => {
            *len = n as u64;
            0
        }
        Err(e) => e.number(),
    }
}
