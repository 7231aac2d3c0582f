// The collector for C. The table is four numbers a block: kind, erase count, used bytes, allow mark. What stands behind each export, and what it does, is in crates/cface_blocks.
// Made by tools/cface.
ghost use Rattle.std.specs.Prelude.{◌≡◌};
ghost use Rattle.collector.specs.Passes.{delete_invalid_objects, erase_invalid_finished_blocks, erase_full_finished_blocks, collect};
ghost use Rattle.medium.specs.Beside.{both};
ghost use Rattle.medium.specs.Operation.{run};
ghost use Rattle.crossing.specs.Crossing.{crossed, crossing, fuse_of, geometry_in};

#[unsafe(no_mangle)]
pub extern "C" fn stumpchoir_delete_invalid_objects(
    geometry: &[u32; 6],
    image: &mut [u8],
    fused: bool,
    units: &mut u32,
    table: &mut [u32],
) -> u8
    ensures { crossed result units.new (both image.new table.new) ≡ crossing units.old (run (fuse_of fused units.old) (delete_invalid_objects (geometry_in geometry.now)) (both image.old table.old)) }
{
    cface_blocks::collector_calls::stumpchoir_delete_invalid_objects(
        geometry, image, fused, units, table,
    )
}

#[unsafe(no_mangle)]
pub extern "C" fn stumpchoir_erase_invalid_finished_blocks(
    geometry: &[u32; 6],
    image: &mut [u8],
    fused: bool,
    units: &mut u32,
    table: &mut [u32],
) -> u8
    ensures { crossed result units.new (both image.new table.new) ≡ crossing units.old (run (fuse_of fused units.old) (erase_invalid_finished_blocks (geometry_in geometry.now)) (both image.old table.old)) }
{
    cface_blocks::collector_calls::stumpchoir_erase_invalid_finished_blocks(
        geometry, image, fused, units, table,
    )
}

#[unsafe(no_mangle)]
pub extern "C" fn stumpchoir_erase_full_finished_blocks(
    geometry: &[u32; 6],
    image: &mut [u8],
    fused: bool,
    units: &mut u32,
    table: &mut [u32],
) -> u8
    ensures { crossed result units.new (both image.new table.new) ≡ crossing units.old (run (fuse_of fused units.old) (erase_full_finished_blocks (geometry_in geometry.now)) (both image.old table.old)) }
{
    cface_blocks::collector_calls::stumpchoir_erase_full_finished_blocks(
        geometry, image, fused, units, table,
    )
}

#[unsafe(no_mangle)]
pub extern "C" fn stumpchoir_run(
    geometry: &[u32; 6],
    image: &mut [u8],
    fused: bool,
    units: &mut u32,
    table: &mut [u32],
) -> u8
    ensures { crossed result units.new (both image.new table.new) ≡ crossing units.old (run (fuse_of fused units.old) (collect (geometry_in geometry.now)) (both image.old table.old)) }
{
    cface_blocks::collector_calls::stumpchoir_run(geometry, image, fused, units, table)
}
