// Several objects of a block in one call, for C.
// Made by tools/cface.
ghost use Rattle.std.specs.Prelude.{◌≡◌, [], ◌∷◌};
ghost use Rattle.batch.specs.Batch.{write_all};
ghost use Rattle.medium.specs.Beside.{both};
ghost use Rattle.medium.specs.Operation.{run};
ghost use Rattle.crossing.specs.Crossing.{crossed, crossing, fuse_of, geometry_in};

use crate::batches;
use crossing::call;

// Up to 64 records in order, each written as stumpchoir_write_to writes an object, up to the first refusal; *done is how many were
// written whole. At its turn a record whose range is outside the payload is 7, then one whose type is none of the three is 4, then what
// stumpchoir_write_to answers, 10 too.
#[unsafe(no_mangle)]
pub extern "C" fn stumpchoir_write_all(
    geometry: &[u32; 6],
    image: &mut [u8],
    fused: bool,
    units: &mut u32,
    block: u32,
    records: &[u32],
    payload: &[u8],
    done: &mut u32,
) -> u8
    ensures { crossed result units.new (both image.new (done.new ∷ [])) ≡ crossing units.old (run (fuse_of fused units.old) (write_all (geometry_in geometry.now) block records.now payload.now) (both image.old (0 ∷ []))) }
{
    let g = call::geometry(geometry);
    let f = call::fuse_of(fused, units);
    let a = batch::write_all(g, image, f, block, records, payload);
    batches::hand_back(a, units, done)
}
