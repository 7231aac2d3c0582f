// Files by their names, for C.
// Made by tools/cface.
ghost use Rattle.std.specs.Prelude.{◌≡◌, length};
ghost use Rattle.cface_storage.specs.Storage.{names_numbers, name_out, names_of};
ghost use Rattle.medium.specs.Operation.{done};
ghost use Rattle.storage.specs.File.{file_size, read_file};
ghost use Rattle.storage.specs.Lookup.{lookup};
ghost use Rattle.storage.specs.Names.{names_from, next_name};
ghost use Rattle.crossing.specs.Crossing.{told, telling, geometry_in, plain, two, telling_by, bytes_out, fitting};
ghost use Rattle.crossing.specs.Values.{location_numbers, located};

use crate::{files, listed};
use crossing::{call, hand};
use objects::location::ObjectLocation;
use storage::{file, lookup};

// Where the metadata object of a file is, by its path and the hash of the path: the first Finalized object of Metadata blocks, in block
// and offset order, that has both; 13 where none has. What is refused on the way ends the search.
#[unsafe(no_mangle)]
pub extern "C" fn stumpchoir_lookup(
    geometry: &[u32; 6],
    image: &[u8],
    path: &[u8],
    hash: u32,
    location: &mut [u32; 2],
) -> u8
    ensures { told result location.new ≡ telling location_numbers location.old (lookup (geometry_in geometry.now) path.now hash image.now) }
{
    let g = call::geometry(geometry);
    let a = lookup::lookup(g, image, path, hash);
    hand::hand(a, location)
}

// How long the file is whose metadata object is at a place: every data object is opened.
#[unsafe(no_mangle)]
pub extern "C" fn stumpchoir_file_size(
    geometry: &[u32; 6],
    image: &[u8],
    block: u32,
    offset: u32,
    size: &mut u64,
) -> u8
    ensures { told result size.new ≡ telling plain size.old (file_size (geometry_in geometry.now) (located block offset) image.now) }
{
    let g = call::geometry(geometry);
    let at = ObjectLocation {
        block: block,
        offset: offset,
    };
    let a = file::size(g, image, at);
    hand::hand(a, size)
}

// Its bytes from a position on, into the first *read bytes of the buffer; none at or past its end. Once the buffer is full no more is
// opened. A refused read leaves the whole buffer as it was.
#[unsafe(no_mangle)]
pub extern "C" fn stumpchoir_file_read(
    geometry: &[u32; 6],
    image: &[u8],
    block: u32,
    offset: u32,
    position: u64,
    buffer: &mut [u8],
    read: &mut u64,
) -> u8
    ensures { told result (two buffer.new read.new) ≡ telling_by bytes_out (two buffer.old read.old) (read_file (geometry_in geometry.now) (located block offset) position (length buffer.old) image.now) }
{
    let g = call::geometry(geometry);
    let at = ObjectLocation {
        block: block,
        offset: offset,
    };
    files::read(g, image, at, position, buffer, read)
}

// Before the first name.
#[unsafe(no_mangle)]
pub extern "C" fn stumpchoir_names_new(geometry: &[u32; 6], names: &mut [u32; 2]) -> u8
    ensures { told result names.new ≡ telling names_numbers names.old (fitting (geometry_in geometry.now) (done (names_from (geometry_in geometry.now)))) }
{
    let g = call::geometry(geometry);
    listed::start(g, names)
}

// The next name, in the order of a lookup, into the first *len bytes of the buffer: *found is 1 with it, with the place of its metadata
// object and with the names behind it; 0 at the end, and then nothing else changes. 7 for a name longer than the buffer.
#[unsafe(no_mangle)]
pub extern "C" fn stumpchoir_names_next(
    geometry: &[u32; 6],
    image: &[u8],
    names: &mut [u32; 2],
    buffer: &mut [u8],
    found: &mut u32,
    location: &mut [u32; 2],
    len: &mut u64,
) -> u8
    ensures { told result (two names.new (two buffer.new (two found.new (two location.new len.new)))) ≡ telling_by name_out (two names.old (two buffer.old (two found.old (two location.old len.old)))) (next_name (geometry_in geometry.now) (names_of names.old) (length buffer.old) image.now) }
{
    let g = call::geometry(geometry);
    listed::next(g, image, names, buffer, found, location, len)
}
