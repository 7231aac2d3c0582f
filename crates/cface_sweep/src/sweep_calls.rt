// What is left over after power cuts, deleted, for C.
// Made by tools/cface.
ghost use Rattle.std.specs.Prelude.{◌≡◌, [], ◌∷◌, length};
ghost use Rattle.medium.specs.Beside.{both};
ghost use Rattle.medium.specs.Operation.{run};
ghost use Rattle.sweep.specs.Sweep.{sweep, sweep_with, words_after, words_fit};
ghost use Rattle.crossing.specs.Crossing.{crossed, crossing, fuse_of, geometry_in};

use crate::sweeps;
use crossing::call;

// Of Finalized metadata objects of equal type and payload bytes the first stays, in block and offset order, and the others are deleted;
// then each Finalized object of a Data block is that no Finalized metadata object refers to. *twins and *unreferred are how many were
// deleted of each. 2 where a Metadata or Data block cannot be listed, then 14 where metadata is not a hash, a name location and whole
// locations within its block, or one of these has no Finalized object of a Data block, and under the strict mark; both before any store.
#[unsafe(no_mangle)]
pub extern "C" fn stumpchoir_sweep(
    geometry: &[u32; 6],
    image: &mut [u8],
    fused: bool,
    units: &mut u32,
    twins: &mut u32,
    unreferred: &mut u32,
) -> u8
    ensures { crossed result units.new (both image.new (twins.new ∷ unreferred.new ∷ [])) ≡ crossing units.old (run (fuse_of fused units.old) (sweep (geometry_in geometry.now)) (both image.old (0 ∷ 0 ∷ []))) }
{
    let g = call::geometry(geometry);
    let f = call::fuse_of(fused, units);
    let a = sweep::sweep(g, image, f);
    sweeps::hand_back(a, units, twins, unreferred)
}

// The same, and sooner: what was met is noted in the words, which the caller lends, one for each byte of the image; 7 for another number
// of them, behind 6 and 7. They come back as 0, and after 6 or 7 as they were.
#[unsafe(no_mangle)]
pub extern "C" fn stumpchoir_sweep_with(
    geometry: &[u32; 6],
    image: &mut [u8],
    fused: bool,
    units: &mut u32,
    twins: &mut u32,
    unreferred: &mut u32,
    words: &mut [u32],
) -> u8
    ensures unreferred_after { crossed result units.new (both image.new (twins.new ∷ unreferred.new ∷ [])) ≡ crossing units.old (run (fuse_of fused units.old) (sweep_with (geometry_in geometry.now) (length words.old)) (both image.old (0 ∷ 0 ∷ []))) }
    ensures words_after { words.new ≡ words_after (words_fit (geometry_in geometry.now) (length image.old) (length words.old)) words.old }
{
    let g = call::geometry(geometry);
    let f = call::fuse_of(fused, units);
    let a = sweep::sweep_with(g, image, f, words);
    sweeps::hand_back(a, units, twins, unreferred)
}
