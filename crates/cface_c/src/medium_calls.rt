// The medium for C. What stands behind each export, and what it does, is in crates/cface.
// Made by tools/cface.
ghost use Rattle.std.specs.Prelude.{◌≡◌, length};
ghost use Rattle.medium.specs.Geometry.{check_of};
ghost use Rattle.medium.specs.Medium.{aligned_of, read_at, write, erase};
ghost use Rattle.medium.specs.Operation.{run};
ghost use Rattle.crossing.specs.Crossing.{geometry_in, told, telling, plain, crossed, crossing, fuse_of};

#[unsafe(no_mangle)]
pub extern "C" fn stumpchoir_check(geometry: &[u32; 6], image: &[u8]) -> u8
    ensures { result ≡ check_of (geometry_in geometry.now) (length image.now) }
{
    cface::medium_calls::stumpchoir_check(geometry, image)
}

#[unsafe(no_mangle)]
pub extern "C" fn stumpchoir_align(geometry: &[u32; 6], n: u32, aligned: &mut u64) -> u8
    ensures { told result aligned.new ≡ telling plain aligned.old (aligned_of (geometry_in geometry.now) n) }
{
    cface::medium_calls::stumpchoir_align(geometry, n, aligned)
}

#[unsafe(no_mangle)]
pub extern "C" fn stumpchoir_read(
    geometry: &[u32; 6],
    image: &[u8],
    block: u32,
    offset: u32,
    buffer: &mut [u8],
) -> u8
    ensures { told result buffer.new ≡ telling plain buffer.old (read_at (geometry_in geometry.now) block offset (length buffer.old) image.now) }
{
    cface::medium_calls::stumpchoir_read(geometry, image, block, offset, buffer)
}

#[unsafe(no_mangle)]
pub extern "C" fn stumpchoir_write(
    geometry: &[u32; 6],
    image: &mut [u8],
    fused: bool,
    units: &mut u32,
    block: u32,
    offset: u32,
    src: &[u8],
) -> u8
    ensures { crossed result units.new image.new ≡ crossing units.old (run (fuse_of fused units.old) (write (geometry_in geometry.now) block offset src.now) image.old) }
{
    cface::medium_calls::stumpchoir_write(geometry, image, fused, units, block, offset, src)
}

#[unsafe(no_mangle)]
pub extern "C" fn stumpchoir_erase(
    geometry: &[u32; 6],
    image: &mut [u8],
    fused: bool,
    units: &mut u32,
    block: u32,
) -> u8
    ensures { crossed result units.new image.new ≡ crossing units.old (run (fuse_of fused units.old) (erase (geometry_in geometry.now) block) image.old) }
{
    cface::medium_calls::stumpchoir_erase(geometry, image, fused, units, block)
}
