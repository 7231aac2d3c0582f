// Files by their names, for C. What stands behind each export, and what it does, is in crates/cface_storage.
// Made by tools/cface.
ghost use Rattle.std.specs.Prelude.{◌≡◌, length};
ghost use Rattle.cface_storage.specs.Storage.{names_numbers, name_out, names_of};
ghost use Rattle.medium.specs.Operation.{done};
ghost use Rattle.storage.specs.File.{file_size, read_file};
ghost use Rattle.storage.specs.Lookup.{lookup};
ghost use Rattle.storage.specs.Names.{names_from, next_name};
ghost use Rattle.crossing.specs.Crossing.{told, telling, geometry_in, plain, two, telling_by, bytes_out, fitting};
ghost use Rattle.crossing.specs.Values.{location_numbers, located};

#[unsafe(no_mangle)]
pub extern "C" fn stumpchoir_lookup(
    geometry: &[u32; 6],
    image: &[u8],
    path: &[u8],
    hash: u32,
    location: &mut [u32; 2],
) -> u8
    ensures { told result location.new ≡ telling location_numbers location.old (lookup (geometry_in geometry.now) path.now hash image.now) }
{
    cface_storage::storage_calls::stumpchoir_lookup(geometry, image, path, hash, location)
}

#[unsafe(no_mangle)]
pub extern "C" fn stumpchoir_file_size(
    geometry: &[u32; 6],
    image: &[u8],
    block: u32,
    offset: u32,
    size: &mut u64,
) -> u8
    ensures { told result size.new ≡ telling plain size.old (file_size (geometry_in geometry.now) (located block offset) image.now) }
{
    cface_storage::storage_calls::stumpchoir_file_size(geometry, image, block, offset, size)
}

#[unsafe(no_mangle)]
pub extern "C" fn stumpchoir_file_read(
    geometry: &[u32; 6],
    image: &[u8],
    block: u32,
    offset: u32,
    position: u64,
    buffer: &mut [u8],
    read: &mut u64,
) -> u8
    ensures { told result (two buffer.new read.new) ≡ telling_by bytes_out (two buffer.old read.old) (read_file (geometry_in geometry.now) (located block offset) position (length buffer.old) image.now) }
{
    cface_storage::storage_calls::stumpchoir_file_read(
        geometry, image, block, offset, position, buffer, read,
    )
}

#[unsafe(no_mangle)]
pub extern "C" fn stumpchoir_names_new(geometry: &[u32; 6], names: &mut [u32; 2]) -> u8
    ensures { told result names.new ≡ telling names_numbers names.old (fitting (geometry_in geometry.now) (done (names_from (geometry_in geometry.now)))) }
{
    cface_storage::storage_calls::stumpchoir_names_new(geometry, names)
}

#[unsafe(no_mangle)]
pub extern "C" fn stumpchoir_names_next(
    geometry: &[u32; 6],
    image: &[u8],
    names: &mut [u32; 2],
    buffer: &mut [u8],
    found: &mut u32,
    location: &mut [u32; 2],
    len: &mut u64,
) -> u8
    ensures { told result (two names.new (two buffer.new (two found.new (two location.new len.new)))) ≡ telling_by name_out (two names.old (two buffer.old (two found.old (two location.old len.old)))) (next_name (geometry_in geometry.now) (names_of names.old) (length buffer.old) image.now) }
{
    cface_storage::storage_calls::stumpchoir_names_next(
        geometry, image, names, buffer, found, location, len,
    )
}
