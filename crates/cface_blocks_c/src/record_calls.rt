// The arithmetic of a block's record for C. What stands behind each export, and what it does, is in crates/cface_blocks.
// Made by tools/cface.
ghost use Rattle.std.specs.Prelude.{◌≡◌};
ghost use Rattle.blocks.specs.Record.{free_space, record_empty, record_numbers, add_used_bytes, update_stats_after_erase};
ghost use Rattle.crossing.specs.Crossing.{told, telling, plain, asked, geometry_in};
ghost use Rattle.crossing.specs.Records.{record_of, flag_number};

#[unsafe(no_mangle)]
pub extern "C" fn stumpchoir_record_free_space(
    geometry: &[u32; 6],
    record: &[u32; 4],
    space: &mut u64,
) -> u8
    ensures { told result space.new ≡ telling plain space.old (asked (geometry_in geometry.now) (record_of «record».now) (λ g r. free_space g r)) }
{
    cface_blocks::record_calls::stumpchoir_record_free_space(geometry, record, space)
}

#[unsafe(no_mangle)]
pub extern "C" fn stumpchoir_record_is_empty(
    geometry: &[u32; 6],
    record: &[u32; 4],
    empty: &mut u32,
) -> u8
    ensures { told result empty.new ≡ telling flag_number empty.old (asked (geometry_in geometry.now) (record_of «record».now) (λ g r. record_empty g r)) }
{
    cface_blocks::record_calls::stumpchoir_record_is_empty(geometry, record, empty)
}

#[unsafe(no_mangle)]
pub extern "C" fn stumpchoir_record_add_used_bytes(
    geometry: &[u32; 6],
    record: &mut [u32; 4],
    total_size: u32,
) -> u8
    ensures { told result «record».new ≡ telling record_numbers «record».old (asked (geometry_in geometry.now) (record_of «record».old) (λ g r. add_used_bytes g r total_size)) }
{
    cface_blocks::record_calls::stumpchoir_record_add_used_bytes(geometry, record, total_size)
}

#[unsafe(no_mangle)]
pub extern "C" fn stumpchoir_record_update_stats_after_erase(
    geometry: &[u32; 6],
    record: &mut [u32; 4],
) -> u8
    ensures { told result «record».new ≡ telling record_numbers «record».old (asked (geometry_in geometry.now) (record_of «record».old) (λ g r. update_stats_after_erase g r)) }
{
    cface_blocks::record_calls::stumpchoir_record_update_stats_after_erase(geometry, record)
}
