// The bytes of a file, and how many they are.
ghost use Rattle.std.specs.Prelude.{◌≡◌, length};
ghost use Rattle.crossing.specs.Crossing.{told, telling_by, two, bytes_out};
ghost use Rattle.storage.specs.File.{read_file};

use crossing::hand;
use medium::geometry::Geometry;
use objects::location::ObjectLocation;
use storage::file;

pub(crate) fn read(
    g: Geometry,
    image: &[u8],
    at: ObjectLocation,
    position: u64,
    buffer: &mut [u8],
    read: &mut u64,
) -> u8
    ensures { told result (two buffer.new read.new) ≡ telling_by bytes_out (two buffer.old read.old) (read_file g at position (length buffer.old) image.now) }
{
    let a = file::read(g, image, at, position as usize, buffer);
    hand::hand(a, read)
}
