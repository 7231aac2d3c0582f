// What is left over after power cuts, deleted, for C. What stands behind each export, and what it does, is in crates/cface_sweep.
// Made by tools/cface.
ghost use Rattle.std.specs.Prelude.{◌≡◌, [], ◌∷◌, length};
ghost use Rattle.medium.specs.Beside.{both};
ghost use Rattle.medium.specs.Operation.{run};
ghost use Rattle.sweep.specs.Sweep.{sweep, sweep_with, words_after, words_fit};
ghost use Rattle.crossing.specs.Crossing.{crossed, crossing, fuse_of, geometry_in};

#[unsafe(no_mangle)]
pub extern "C" fn stumpchoir_sweep(
    geometry: &[u32; 6],
    image: &mut [u8],
    fused: bool,
    units: &mut u32,
    twins: &mut u32,
    unreferred: &mut u32,
) -> u8
    ensures { crossed result units.new (both image.new (twins.new ∷ unreferred.new ∷ [])) ≡ crossing units.old (run (fuse_of fused units.old) (sweep (geometry_in geometry.now)) (both image.old (0 ∷ 0 ∷ []))) }
{
    cface_sweep::sweep_calls::stumpchoir_sweep(geometry, image, fused, units, twins, unreferred)
}

#[unsafe(no_mangle)]
pub extern "C" fn stumpchoir_sweep_with(
    geometry: &[u32; 6],
    image: &mut [u8],
    fused: bool,
    units: &mut u32,
    twins: &mut u32,
    unreferred: &mut u32,
    words: &mut [u32],
) -> u8
    ensures unreferred_after { crossed result units.new (both image.new (twins.new ∷ unreferred.new ∷ [])) ≡ crossing units.old (run (fuse_of fused units.old) (sweep_with (geometry_in geometry.now) (length words.old)) (both image.old (0 ∷ 0 ∷ []))) }
    ensures words_after { words.new ≡ words_after (words_fit (geometry_in geometry.now) (length image.old) (length words.old)) words.old }
{
    cface_sweep::sweep_calls::stumpchoir_sweep_with(
        geometry, image, fused, units, twins, unreferred, words,
    )
}
