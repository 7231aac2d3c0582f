// Blocks for C.
// Made by tools/cface.
ghost use Rattle.std.specs.Prelude.{◌≡◌};
ghost use Rattle.blocks.specs.BlockHeader.{block_header_at, write_header};
ghost use Rattle.blocks.specs.Format.{data_empty_at, format_block, format_storage, set_block_type};
ghost use Rattle.blocks.specs.Record.{kind_of, record_numbers};
ghost use Rattle.blocks.specs.Scan.{scan_block, calculate_freeable_space};
ghost use Rattle.medium.specs.Operation.{run};
ghost use Rattle.crossing.specs.Crossing.{told, telling, geometry_in, crossed, crossing, fuse_of, given, plain};
ghost use Rattle.crossing.specs.Records.{block_header_numbers, block_header_of, flag_number, block_type_of};

use blocks::header::{BlockHeader, BlockHeaderKind};
use blocks::{format, scan};
use crossing::call::Told;
use crossing::{call, hand, records};

// The header of a block: kind and erase count.
#[unsafe(no_mangle)]
pub extern "C" fn stumpchoir_block_header_read(
    geometry: &[u32; 6],
    image: &[u8],
    block: u32,
    header: &mut [u32; 2],
) -> u8
    ensures { told result header.new ≡ telling block_header_numbers header.old (block_header_at (geometry_in geometry.now) block image.now) }
{
    let g = call::geometry(geometry);
    let a = BlockHeader::read(g, image, block);
    hand::hand(a, header)
}

// Programs a header, or is 10.
#[unsafe(no_mangle)]
pub extern "C" fn stumpchoir_block_header_write(
    geometry: &[u32; 6],
    image: &mut [u8],
    fused: bool,
    units: &mut u32,
    block: u32,
    kind: u32,
    erase_count: u32,
) -> u8
    ensures { crossed result units.new image.new ≡ crossing units.old (run (fuse_of fused units.old) (given (geometry_in geometry.now) (kind_of kind) (λ g k. write_header g block (block_header_of k erase_count))) image.old) }
{
    let g = call::geometry(geometry);
    let k = match BlockHeaderKind::try_from(kind) {
        Ok(k) => k,
        Err(e) => return call::refusal(g, image.len(), e.number()),
    };
    let h = BlockHeader {
        kind: k,
        erase_count: erase_count,
    };
    let f = call::fuse_of(fused, units);
    let a = h.write(g, image, f, block);
    call::hand_back(a.map_err(Told::from), units)
}

// Whether all bytes behind the header are FF: 1 or 0.
#[unsafe(no_mangle)]
pub extern "C" fn stumpchoir_is_block_data_empty(
    geometry: &[u32; 6],
    image: &[u8],
    block: u32,
    empty: &mut u32,
) -> u8
    ensures { told result empty.new ≡ telling flag_number empty.old (data_empty_at (geometry_in geometry.now) block image.now) }
{
    let g = call::geometry(geometry);
    let a = format::is_block_data_empty(g, image, block);
    hand::hand(a, empty)
}

// Makes a block Undefined and empty; 2 for a known block whose erase count is at its end.
#[unsafe(no_mangle)]
pub extern "C" fn stumpchoir_format_block(
    geometry: &[u32; 6],
    image: &mut [u8],
    fused: bool,
    units: &mut u32,
    block: u32,
) -> u8
    ensures { crossed result units.new image.new ≡ crossing units.old (run (fuse_of fused units.old) (format_block (geometry_in geometry.now) block) image.old) }
{
    let g = call::geometry(geometry);
    let f = call::fuse_of(fused, units);
    let a = format::format_block(g, image, f, block);
    call::hand_back(a.map_err(Told::from), units)
}

// Formats every block, from 0 up.
#[unsafe(no_mangle)]
pub extern "C" fn stumpchoir_format_storage(
    geometry: &[u32; 6],
    image: &mut [u8],
    fused: bool,
    units: &mut u32,
) -> u8
    ensures { crossed result units.new image.new ≡ crossing units.old (run (fuse_of fused units.old) (format_storage (geometry_in geometry.now)) image.old) }
{
    let g = call::geometry(geometry);
    let f = call::fuse_of(fused, units);
    let a = format::format_storage(g, image, f);
    call::hand_back(a.map_err(Told::from), units)
}

// The record of a block, read off its bytes; 1 for an Empty one, 2 where a header in it is corrupted.
#[unsafe(no_mangle)]
pub extern "C" fn stumpchoir_scan_block(
    geometry: &[u32; 6],
    image: &[u8],
    block: u32,
    record: &mut [u32; 4],
) -> u8
    ensures { told result «record».new ≡ telling record_numbers «record».old (scan_block (geometry_in geometry.now) block image.now) }
{
    let g = call::geometry(geometry);
    let a = scan::scan_block(g, image, block);
    hand::hand(a, record)
}

// Programs the type byte; 4 for a kind below 2. Under the strict mark a block that has a type already is 10, but for Undefined, which
// stores FF.
#[unsafe(no_mangle)]
pub extern "C" fn stumpchoir_set_block_type(
    geometry: &[u32; 6],
    image: &mut [u8],
    fused: bool,
    units: &mut u32,
    block: u32,
    kind: u32,
) -> u8
    ensures { crossed result units.new image.new ≡ crossing units.old (run (fuse_of fused units.old) (given (geometry_in geometry.now) (block_type_of kind) (λ g t. set_block_type g block t)) image.old) }
{
    let g = call::geometry(geometry);
    let t = match records::type_of(kind) {
        Ok(t) => t,
        Err(e) => return call::refusal(g, image.len(), e.number()),
    };
    let f = call::fuse_of(fused, units);
    let a = format::set_block_type(g, image, f, block, t);
    call::hand_back(a.map_err(Told::from), units)
}

// What is free, and what unfinished and deleted objects take; 9 where the listing runs past the block.
#[unsafe(no_mangle)]
pub extern "C" fn stumpchoir_calculate_freeable_space(
    geometry: &[u32; 6],
    image: &[u8],
    block: u32,
    space: &mut u64,
) -> u8
    ensures { told result space.new ≡ telling plain space.old (calculate_freeable_space (geometry_in geometry.now) block image.now) }
{
    let g = call::geometry(geometry);
    let a = scan::calculate_freeable_space(g, image, block);
    hand::hand(a, space)
}
