// Several objects of a block in one call, for C. What stands behind each export, and what it does, is in crates/cface_batch.
// Made by tools/cface.
ghost use Rattle.std.specs.Prelude.{◌≡◌, [], ◌∷◌};
ghost use Rattle.batch.specs.Batch.{write_all};
ghost use Rattle.medium.specs.Beside.{both};
ghost use Rattle.medium.specs.Operation.{run};
ghost use Rattle.crossing.specs.Crossing.{crossed, crossing, fuse_of, geometry_in};

#[unsafe(no_mangle)]
pub extern "C" fn stumpchoir_write_all(
    geometry: &[u32; 6],
    image: &mut [u8],
    fused: bool,
    units: &mut u32,
    block: u32,
    records: &[u32],
    payload: &[u8],
    done: &mut u32,
) -> u8
    ensures { crossed result units.new (both image.new (done.new ∷ [])) ≡ crossing units.old (run (fuse_of fused units.old) (write_all (geometry_in geometry.now) block records.now payload.now) (both image.old (0 ∷ []))) }
{
    cface_batch::batch_calls::stumpchoir_write_all(
        geometry, image, fused, units, block, records, payload, done,
    )
}
