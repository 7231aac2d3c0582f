// The collector's table: a record of numbers a block, taken out and put back whole. C lends it, as numbers in a row.
ghost use Rattle.std.specs.Prelude.{◌≡◌, ◌*◌, ◌<◌, length, set};
ghost use Rattle.medium.specs.Refusal.{answer_of, code_of};
ghost use Rattle.medium.specs.Operation.{number_of};
ghost use Rattle.collector.specs.Table.{record_length, allow_mark, field_at, HasRecord, record_at, put_record, possible_from, collectable};

use blocks::record::BlockInfo;
use medium::geometry::Geometry;
use medium::refusal::Refusal;

// The words of a record, in their order, and how many there are.
const KIND: usize = 0;

const ERASE_COUNT: usize = 1;

const USED_BYTES: usize = 2;

const ALLOW_MARK: usize = 3;

const RECORD_LENGTH: usize = 4;

// Where word i of a block's record stands.
fn field_at(b: u32, i: usize) -> usize
    requires { i < record_length }
    ensures { result ≡ field_at b i }
{
    RECORD_LENGTH * (b as usize) + i
}

#[tactic(auto, unfolding(crate::specs::Table::record_at))]
pub(crate) fn record_at(table: &[u32], b: u32) -> Result<BlockInfo, Refusal>
    requires { HasRecord table.now b }
    ensures { answer_of result ≡ record_at table.now b }
{
    let kind = table[field_at(b, KIND)];
    let count = table[field_at(b, ERASE_COUNT)];
    let used = table[field_at(b, USED_BYTES)];
    let mark = table[field_at(b, ALLOW_MARK)];
    BlockInfo::of_numbers(kind, count, used, mark)
}

pub(crate) fn put(table: &mut [u32], b: u32, r: BlockInfo)
    requires { HasRecord table.old b }
    ensures { table.new ≡ put_record table.old b r }
{
    table[field_at(b, KIND)] = u32::from(r.header.kind);
    table[field_at(b, ERASE_COUNT)] = r.header.erase_count;
    table[field_at(b, USED_BYTES)] = r.used_bytes;
    table[field_at(b, ALLOW_MARK)] = r.mark();
}

// The allow mark alone.
pub(crate) fn allow(table: &mut [u32], b: u32)
    requires { HasRecord table.old b }
    ensures { table.new ≡ set table.old (field_at b allow_mark) 1 }
{
    table[field_at(b, ALLOW_MARK)] = 1;
}

// 4 where a record has an impossible value.
fn possible(table: &[u32], count: u32) -> Result<(), Refusal>
    requires { record_length * count ≡ length table.now }
    ensures { code_of result ≡ number_of (possible_from count table.now 0) }
{
    for b in 0..count {
        record_at(table, b)?;
    }
    Ok(())
}

// What is tested before any step: 6, 7 for the image, 7 for the table, 4 for an impossible value.
pub(crate) fn check(g: Geometry, room: usize, table: &[u32]) -> Result<(), Refusal>
    ensures { code_of result ≡ collectable g room table.now }
{
    medium::geometry::check(g, room)?;
    if RECORD_LENGTH * (g.count as usize) != table.len() {
        return Err(Refusal::BadRoom);
    }
    possible(table, g.count)
}
