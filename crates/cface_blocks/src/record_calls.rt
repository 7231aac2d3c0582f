// The arithmetic of a block's record for C.
// Made by tools/cface.
ghost use Rattle.std.specs.Prelude.{◌≡◌};
ghost use Rattle.blocks.specs.Record.{free_space, record_empty, record_numbers, add_used_bytes, update_stats_after_erase};
ghost use Rattle.crossing.specs.Crossing.{told, telling, plain, asked, geometry_in};
ghost use Rattle.crossing.specs.Records.{record_of, flag_number};

use crossing::{call, hand, records};

// What is left of a block; 9 where the used bytes pass the block size.
#[unsafe(no_mangle)]
pub extern "C" fn stumpchoir_record_free_space(
    geometry: &[u32; 6],
    record: &[u32; 4],
    space: &mut u64,
) -> u8
    ensures { told result space.new ≡ telling plain space.old (asked (geometry_in geometry.now) (record_of «record».now) (λ g r. free_space g r)) }
{
    let g = call::geometry(geometry);
    let r = match records::record_of(record) {
        Ok(r) => r,
        Err(e) => return call::refusal_alone(g, e.number()),
    };
    let a = r.free_space(g);
    hand::hand(a, space)
}

// Whether nothing but the header is used: 1 or 0.
#[unsafe(no_mangle)]
pub extern "C" fn stumpchoir_record_is_empty(
    geometry: &[u32; 6],
    record: &[u32; 4],
    empty: &mut u32,
) -> u8
    ensures { told result empty.new ≡ telling flag_number empty.old (asked (geometry_in geometry.now) (record_of «record».now) (λ g r. record_empty g r)) }
{
    let g = call::geometry(geometry);
    let r = match records::record_of(record) {
        Ok(r) => r,
        Err(e) => return call::refusal_alone(g, e.number()),
    };
    let a = r.is_empty(g);
    hand::hand(a, empty)
}

// Adds an object's size, aligned up; 9 where the sum passes 4294967295.
#[unsafe(no_mangle)]
pub extern "C" fn stumpchoir_record_add_used_bytes(
    geometry: &[u32; 6],
    record: &mut [u32; 4],
    total_size: u32,
) -> u8
    ensures { told result «record».new ≡ telling record_numbers «record».old (asked (geometry_in geometry.now) (record_of «record».old) (λ g r. add_used_bytes g r total_size)) }
{
    let g = call::geometry(geometry);
    let r = match records::record_of(record) {
        Ok(r) => r,
        Err(e) => return call::refusal_alone(g, e.number()),
    };
    let a = r.add_used_bytes(g, total_size);
    hand::hand(a, record)
}

// The record of a block that was just formatted; 9 at the last erase count.
#[unsafe(no_mangle)]
pub extern "C" fn stumpchoir_record_update_stats_after_erase(
    geometry: &[u32; 6],
    record: &mut [u32; 4],
) -> u8
    ensures { told result «record».new ≡ telling record_numbers «record».old (asked (geometry_in geometry.now) (record_of «record».old) (λ g r. update_stats_after_erase g r)) }
{
    let g = call::geometry(geometry);
    let r = match records::record_of(record) {
        Ok(r) => r,
        Err(e) => return call::refusal_alone(g, e.number()),
    };
    let a = r.update_stats_after_erase(g);
    hand::hand(a, record)
}
