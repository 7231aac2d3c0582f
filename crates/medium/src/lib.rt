// The medium: NOR flash as document 01 has it.
//
// The chip is an image of equal blocks, lent by the caller, and a geometry value says how it is laid out. A store programs units,
// a byte or a four-byte word each, in rising order. A bit can only go from 1 to 0, so a unit becomes old AND new; an erase sets a
// whole block back to FF. The fuse counts the units that may still be programmed: it goes in by value and comes back in the
// answer. A store that finds too few programs those, and answers 8 with the fuse at 0. A geometry with the strict mark is of a chip that
// programs no unit twice: a store that would is refused with 10 before any of its units.
//
// Always true: a refusal with 6, 7, 3 or 10 changes nothing; with 8 exactly the first units are stored; a read never needs power; no
// call touches a byte outside the block that it names.
//
// Geometry, image and fuse go in side by side, here and above: a struct that held the lent image would have to say in each contract that it
// still holds the same reference and the same geometry.
#![tactic(auto)]

pub mod fuse;
pub mod geometry;
pub mod granularity;
pub mod refusal;

ghost use Rattle.std.specs.Prelude.{◌≡◌, ◌&&◌, not, length, get_or, ◌+◌, ◌≤◌, ◌<◌};
ghost use Rattle.medium.specs.Operation.{run, ended, answered, unless_done};
ghost use Rattle.medium.specs.Refusal.{code_of};
ghost use Rattle.medium.specs.Granularity.{widest_unit, align_of};
ghost use Rattle.medium.specs.Units.{blank, units_of};
ghost use Rattle.medium.specs.Strict.{all_ff, again_at, any_again};
ghost use Rattle.medium.specs.Medium.{onto, writable, storable, erasable, readable, read_at, lent};

use fuse::{Fuse, Stored};
use geometry::Geometry;
use refusal::Refusal;

// Whether n bytes of a block can be read: 6, 7, or 3 where there is no such block or range. By a difference, so that a false length
// cannot wrap.
pub fn reach(g: Geometry, room: usize, block: u32, offset: usize, n: usize) -> Result<(), Refusal>
    ensures { code_of result ≡ readable g room block offset n }
{
    geometry::check(g, room)?;
    let size = g.size as usize;
    if g.count <= block {
        return Err(Refusal::Io);
    }
    if size < offset {
        return Err(Refusal::Io);
    }
    if size - offset < n {
        return Err(Refusal::Io);
    }
    Ok(())
}

// Whether n bytes can be written.
fn may_write(g: Geometry, room: usize, block: u32, offset: usize, n: usize) -> Result<(), Refusal>
    ensures { code_of result ≡ writable g room block offset n }
{
    reach(g, room, block, offset, n)?;
    let w = g.granularity.width();
    if offset % w != 0 {
        return Err(Refusal::Io);
    }
    let taken = granularity::units(w, n) * w;
    if (g.size as usize) - offset < taken {
        return Err(Refusal::Io);
    }
    Ok(())
}

// Whether a unit would be programmed again: neither its data nor the bytes that it meets are all FF.
fn meets_unit(old: &[u8], new: &[u8]) -> bool
    ensures { result ≡ (not (all_ff new.now) && not (all_ff old.now)) }
{
    if is_erased(new) {
        return false;
    }
    !is_erased(old)
}

// Whether the unit of w bytes at i would be; the last one can have less data.
fn meets_at(w: usize, old: &[u8], src: &[u8], i: usize) -> bool
    requires { (i < length src.now) × (i + w ≤ length old.now) }
    ensures { result ≡ again_at w old.now src.now i }
{
    if src.len() - i < w {
        return meets_unit(&old[i..i + w], &src[i..]);
    }
    meets_unit(&old[i..i + w], &src[i..i + w])
}

// Whether any of src's units would be.
fn meets(w: usize, old: &[u8], src: &[u8]) -> bool
    requires le_w { (1 ≤ w) × (w ≤ widest_unit) }
    requires len { length old.now ≡ align_of w (length src.now) }
    ensures { result ≡ any_again (units_of w 0 src.now) old.now }
{
    for unit in 0..granularity::units(w, src.len()) {
        if meets_at(w, old, src, unit * w) {
            return true;
        }
    }
    false
}

// Whether the bytes of src can be stored: as a write of so many, and under the strict mark 10.
fn may_store(
    g: Geometry,
    image: &[u8],
    block: u32,
    offset: usize,
    src: &[u8],
) -> Result<(), Refusal>
    ensures { code_of result ≡ storable g block offset src.now image.now }
{
    may_write(g, image.len(), block, offset, src.len())?;
    if g.strict != 1 {
        return Ok(());
    }
    let w = g.granularity.width();
    let at = (block as usize) * (g.size as usize) + offset;
    let n = granularity::units(w, src.len()) * w;
    if meets(w, &image[at..at + n], src) {
        return Err(Refusal::NotErased);
    }
    Ok(())
}

fn may_erase(g: Geometry, room: usize, block: u32) -> Result<(), Refusal>
    ensures { code_of result ≡ erasable g room block }
{
    geometry::check(g, room)?;
    if g.count <= block {
        return Err(Refusal::Io);
    }
    Ok(())
}

// Whether every byte is FF.
pub fn is_erased(part: &[u8]) -> bool
    ensures { result ≡ all_ff part.now }
{
    for byte in part {
        if *byte != 0xFF {
            return false;
        }
    }
    true
}

// The byte at i, and FF past the end.
fn padded(src: &[u8], i: usize) -> u8
    ensures { result ≡ get_or src.now i 255 }
{
    if i < src.len() { src[i] } else { 255 }
}

// Each byte becomes old AND new.
fn program(part: &mut [u8], src: &[u8])
    ensures { part.new ≡ onto (length part.old) src.now part.old }
{
    for i in 0..part.len() {
        let b = padded(src, i);
        part[i] = part[i] & b;
    }
}

// Lends a range of one block: the bytes that a read gives, and none where it would refuse.
pub fn lend(g: Geometry, image: &[u8], block: u32, offset: usize, n: usize) -> &[u8]
    ensures { result.now ≡ lent (read_at g block offset n image.now) }
{
    let Ok(()) = reach(g, image.len(), block, offset, n) else {
        return &image[..0];
    };
    let at = (block as usize) * (g.size as usize) + offset;
    let end = at + n;
    &image[at..end]
}

// Copies a range of one block into the buffer, or refuses with 6, 7 or 3 and leaves the buffer as it was.
pub fn read(
    g: Geometry,
    image: &[u8],
    block: u32,
    offset: usize,
    buffer: &mut [u8],
) -> Result<(), Refusal>
    ensures buffer_after { answered result buffer.new ≡ read_at g block offset (length buffer.old) image.now }
    ensures buffer_after_2 { buffer.new ≡ unless_done result buffer.old buffer.new }
{
    reach(g, image.len(), block, offset, buffer.len())?;
    let at = (block as usize) * (g.size as usize) + offset;
    let n = buffer.len();
    buffer.copy_from_slice(&image[at..at + n]);
    Ok(())
}

// Programs the bytes of src, or refuses with 6, 7, 3 or, under the strict mark, 10 and the image as it was, or 8 and what there was power
// for.
pub fn write(
    g: Geometry,
    image: &mut [u8],
    f: Fuse,
    block: u32,
    offset: usize,
    src: &[u8],
) -> Stored
    ensures { ended result image.new ≡ run f (Rattle.medium.specs.Medium.write g block offset src.now) image.old }
{
    f.beside(may_store(g, image, block, offset, src))?;
    let w = g.granularity.width();
    let wanted = granularity::units(w, src.len()) as u32;
    let spent = fuse::spend(f, wanted);
    let at = (block as usize) * (g.size as usize) + offset;
    let n = (fuse::granted(spent, wanted) as usize) * w;
    program(&mut image[at..at + n], src);
    fuse::outcome(spent)
}

// Sets a block to FF, one unit.
pub fn erase(g: Geometry, image: &mut [u8], f: Fuse, block: u32) -> Stored
    ensures { ended result image.new ≡ run f (Rattle.medium.specs.Medium.erase g block) image.old }
{
    f.beside(may_erase(g, image.len(), block))?;
    let spent = fuse::spend(f, 1);
    let at = (block as usize) * (g.size as usize);
    let n = (fuse::granted(spent, 1) as usize) * (g.size as usize);
    image[at..at + n].fill(0xFF);
    fuse::outcome(spent)
}
