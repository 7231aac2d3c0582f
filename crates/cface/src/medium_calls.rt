// The medium for C.
// Made by tools/cface.
ghost use Rattle.std.specs.Prelude.{◌≡◌, length};
ghost use Rattle.medium.specs.Geometry.{check_of};
ghost use Rattle.medium.specs.Medium.{aligned_of, read_at, write, erase};
ghost use Rattle.medium.specs.Operation.{run};
ghost use Rattle.crossing.specs.Crossing.{geometry_in, told, telling, plain, crossed, crossing, fuse_of};

use crate::filled;
use crossing::call::Told;
use crossing::{call, hand};
use medium::{geometry, refusal};

// A geometry and the room for it: 0, 6 or 7.
#[unsafe(no_mangle)]
pub extern "C" fn stumpchoir_check(geometry: &[u32; 6], image: &[u8]) -> u8
    ensures { result ≡ check_of (geometry_in geometry.now) (length image.now) }
{
    let g = call::geometry(geometry);
    refusal::number(geometry::check(g, image.len()))
}

// n bytes aligned up to whole units.
#[unsafe(no_mangle)]
pub extern "C" fn stumpchoir_align(geometry: &[u32; 6], n: u32, aligned: &mut u64) -> u8
    ensures { told result aligned.new ≡ telling plain aligned.old (aligned_of (geometry_in geometry.now) n) }
{
    let g = call::geometry(geometry);
    let a = geometry::align(g, n);
    hand::hand(a, aligned)
}

// A range of one block, into the buffer.
#[unsafe(no_mangle)]
pub extern "C" fn stumpchoir_read(
    geometry: &[u32; 6],
    image: &[u8],
    block: u32,
    offset: u32,
    buffer: &mut [u8],
) -> u8
    ensures { told result buffer.new ≡ telling plain buffer.old (read_at (geometry_in geometry.now) block offset (length buffer.old) image.now) }
{
    let g = call::geometry(geometry);
    filled::read(g, image, block, offset, buffer)
}

// Programs the bytes of src at a place of a block: one store, so 3, then 10, then 8.
#[unsafe(no_mangle)]
pub extern "C" fn stumpchoir_write(
    geometry: &[u32; 6],
    image: &mut [u8],
    fused: bool,
    units: &mut u32,
    block: u32,
    offset: u32,
    src: &[u8],
) -> u8
    ensures { crossed result units.new image.new ≡ crossing units.old (run (fuse_of fused units.old) (write (geometry_in geometry.now) block offset src.now) image.old) }
{
    let g = call::geometry(geometry);
    let f = call::fuse_of(fused, units);
    let a = medium::write(g, image, f, block, offset as usize, src);
    call::hand_back(a.map_err(Told::from), units)
}

// Sets a block to FF: one unit.
#[unsafe(no_mangle)]
pub extern "C" fn stumpchoir_erase(
    geometry: &[u32; 6],
    image: &mut [u8],
    fused: bool,
    units: &mut u32,
    block: u32,
) -> u8
    ensures { crossed result units.new image.new ≡ crossing units.old (run (fuse_of fused units.old) (erase (geometry_in geometry.now) block) image.old) }
{
    let g = call::geometry(geometry);
    let f = call::fuse_of(fused, units);
    let a = medium::erase(g, image, f, block);
    call::hand_back(a.map_err(Told::from), units)
}
