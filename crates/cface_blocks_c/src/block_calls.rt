// Blocks for C. What stands behind each export, and what it does, is in crates/cface_blocks.
// Made by tools/cface.
ghost use Rattle.std.specs.Prelude.{◌≡◌};
ghost use Rattle.blocks.specs.BlockHeader.{block_header_at, write_header};
ghost use Rattle.blocks.specs.Format.{data_empty_at, format_block, format_storage, set_block_type};
ghost use Rattle.blocks.specs.Record.{kind_of, record_numbers};
ghost use Rattle.blocks.specs.Scan.{scan_block, calculate_freeable_space};
ghost use Rattle.medium.specs.Operation.{run};
ghost use Rattle.crossing.specs.Crossing.{told, telling, geometry_in, crossed, crossing, fuse_of, given, plain};
ghost use Rattle.crossing.specs.Records.{block_header_numbers, block_header_of, flag_number, block_type_of};

#[unsafe(no_mangle)]
pub extern "C" fn stumpchoir_block_header_read(
    geometry: &[u32; 6],
    image: &[u8],
    block: u32,
    header: &mut [u32; 2],
) -> u8
    ensures { told result header.new ≡ telling block_header_numbers header.old (block_header_at (geometry_in geometry.now) block image.now) }
{
    cface_blocks::block_calls::stumpchoir_block_header_read(geometry, image, block, header)
}

#[unsafe(no_mangle)]
pub extern "C" fn stumpchoir_block_header_write(
    geometry: &[u32; 6],
    image: &mut [u8],
    fused: bool,
    units: &mut u32,
    block: u32,
    kind: u32,
    erase_count: u32,
) -> u8
    ensures { crossed result units.new image.new ≡ crossing units.old (run (fuse_of fused units.old) (given (geometry_in geometry.now) (kind_of kind) (λ g k. write_header g block (block_header_of k erase_count))) image.old) }
{
    cface_blocks::block_calls::stumpchoir_block_header_write(
        geometry,
        image,
        fused,
        units,
        block,
        kind,
        erase_count,
    )
}

#[unsafe(no_mangle)]
pub extern "C" fn stumpchoir_is_block_data_empty(
    geometry: &[u32; 6],
    image: &[u8],
    block: u32,
    empty: &mut u32,
) -> u8
    ensures { told result empty.new ≡ telling flag_number empty.old (data_empty_at (geometry_in geometry.now) block image.now) }
{
    cface_blocks::block_calls::stumpchoir_is_block_data_empty(geometry, image, block, empty)
}

#[unsafe(no_mangle)]
pub extern "C" fn stumpchoir_format_block(
    geometry: &[u32; 6],
    image: &mut [u8],
    fused: bool,
    units: &mut u32,
    block: u32,
) -> u8
    ensures { crossed result units.new image.new ≡ crossing units.old (run (fuse_of fused units.old) (format_block (geometry_in geometry.now) block) image.old) }
{
    cface_blocks::block_calls::stumpchoir_format_block(geometry, image, fused, units, block)
}

#[unsafe(no_mangle)]
pub extern "C" fn stumpchoir_format_storage(
    geometry: &[u32; 6],
    image: &mut [u8],
    fused: bool,
    units: &mut u32,
) -> u8
    ensures { crossed result units.new image.new ≡ crossing units.old (run (fuse_of fused units.old) (format_storage (geometry_in geometry.now)) image.old) }
{
    cface_blocks::block_calls::stumpchoir_format_storage(geometry, image, fused, units)
}

#[unsafe(no_mangle)]
pub extern "C" fn stumpchoir_scan_block(
    geometry: &[u32; 6],
    image: &[u8],
    block: u32,
    record: &mut [u32; 4],
) -> u8
    ensures { told result «record».new ≡ telling record_numbers «record».old (scan_block (geometry_in geometry.now) block image.now) }
{
    cface_blocks::block_calls::stumpchoir_scan_block(geometry, image, block, record)
}

#[unsafe(no_mangle)]
pub extern "C" fn stumpchoir_set_block_type(
    geometry: &[u32; 6],
    image: &mut [u8],
    fused: bool,
    units: &mut u32,
    block: u32,
    kind: u32,
) -> u8
    ensures { crossed result units.new image.new ≡ crossing units.old (run (fuse_of fused units.old) (given (geometry_in geometry.now) (block_type_of kind) (λ g t. set_block_type g block t)) image.old) }
{
    cface_blocks::block_calls::stumpchoir_set_block_type(geometry, image, fused, units, block, kind)
}

#[unsafe(no_mangle)]
pub extern "C" fn stumpchoir_calculate_freeable_space(
    geometry: &[u32; 6],
    image: &[u8],
    block: u32,
    space: &mut u64,
) -> u8
    ensures { told result space.new ≡ telling plain space.old (calculate_freeable_space (geometry_in geometry.now) block image.now) }
{
    cface_blocks::block_calls::stumpchoir_calculate_freeable_space(geometry, image, block, space)
}
