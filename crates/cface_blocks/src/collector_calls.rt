// The collector for C. The table is four numbers a block: kind, erase count, used bytes, allow mark.
// Made by tools/cface.
ghost use Rattle.std.specs.Prelude.{◌≡◌};
ghost use Rattle.collector.specs.Passes.{delete_invalid_objects, erase_invalid_finished_blocks, erase_full_finished_blocks, collect};
ghost use Rattle.medium.specs.Beside.{both};
ghost use Rattle.medium.specs.Operation.{run};
ghost use Rattle.crossing.specs.Crossing.{crossed, crossing, fuse_of, geometry_in};

use crossing::call;
use crossing::call::Told;

// The first pass: deletes objects that a power cut left unfinished, or is 10 where their size or mark cannot be stored.
#[unsafe(no_mangle)]
pub extern "C" fn stumpchoir_delete_invalid_objects(
    geometry: &[u32; 6],
    image: &mut [u8],
    fused: bool,
    units: &mut u32,
    table: &mut [u32],
) -> u8
    ensures { crossed result units.new (both image.new table.new) ≡ crossing units.old (run (fuse_of fused units.old) (delete_invalid_objects (geometry_in geometry.now)) (both image.old table.old)) }
{
    let g = call::geometry(geometry);
    let f = call::fuse_of(fused, units);
    let a = collector::delete_invalid_objects(g, image, table, f);
    call::hand_back(a.map_err(Told::from), units)
}

// The second: formats blocks without allocation whose only object that is not deleted is an unfinished one.
#[unsafe(no_mangle)]
pub extern "C" fn stumpchoir_erase_invalid_finished_blocks(
    geometry: &[u32; 6],
    image: &mut [u8],
    fused: bool,
    units: &mut u32,
    table: &mut [u32],
) -> u8
    ensures { crossed result units.new (both image.new table.new) ≡ crossing units.old (run (fuse_of fused units.old) (erase_invalid_finished_blocks (geometry_in geometry.now)) (both image.old table.old)) }
{
    let g = call::geometry(geometry);
    let f = call::fuse_of(fused, units);
    let a = collector::erase_invalid_finished_blocks(g, image, table, f);
    call::hand_back(a.map_err(Told::from), units)
}

// The third: formats blocks with deleted objects alone, unless they are full.
#[unsafe(no_mangle)]
pub extern "C" fn stumpchoir_erase_full_finished_blocks(
    geometry: &[u32; 6],
    image: &mut [u8],
    fused: bool,
    units: &mut u32,
    table: &mut [u32],
) -> u8
    ensures { crossed result units.new (both image.new table.new) ≡ crossing units.old (run (fuse_of fused units.old) (erase_full_finished_blocks (geometry_in geometry.now)) (both image.old table.old)) }
{
    let g = call::geometry(geometry);
    let f = call::fuse_of(fused, units);
    let a = collector::erase_full_finished_blocks(g, image, table, f);
    call::hand_back(a.map_err(Told::from), units)
}

// A collection: the three passes in order. Only the first can be 10.
#[unsafe(no_mangle)]
pub extern "C" fn stumpchoir_run(
    geometry: &[u32; 6],
    image: &mut [u8],
    fused: bool,
    units: &mut u32,
    table: &mut [u32],
) -> u8
    ensures { crossed result units.new (both image.new table.new) ≡ crossing units.old (run (fuse_of fused units.old) (collect (geometry_in geometry.now)) (both image.old table.old)) }
{
    let g = call::geometry(geometry);
    let f = call::fuse_of(fused, units);
    let a = collector::run(g, image, table, f);
    call::hand_back(a.map_err(Told::from), units)
}
