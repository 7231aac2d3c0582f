// What the two erasing passes share: the format of a block, with the record after it.
ghost use Rattle.std.specs.Prelude.{◌≡◌, true, ◌<◌, length};
ghost use Rattle.medium.specs.Geometry.{check_of};
ghost use Rattle.medium.specs.Operation.{run, ended};
ghost use Rattle.medium.specs.Beside.{both};
ghost use Rattle.blocks.specs.Record.{erased_record};
ghost use Rattle.collector.specs.Table.{HasRecord};
ghost use Rattle.collector.specs.Passes.{worn_out, renewing, erasing};

use crate::table;
use blocks::format;
use blocks::header::{BlockHeader, BlockHeaderKind, BlockType};
use blocks::record::BlockInfo;
use medium::fuse::{Fuse, Stored};
use medium::geometry::Geometry;
use medium::granularity::Granularity;
use medium::refusal::Refusal;

// At the last erase count: what a format would refuse, else 9.
fn worn_out(g: Geometry, image: &[u8], f: Fuse, b: u32) -> Stored
    requires { check_of g (length image.now) ≡ 0 }
    ensures { ended result image.now ≡ run f (worn_out g b) image.now }
{
    f.beside(format::plan_format(g, image, b))?;
    f.beside(Err(Refusal::RustPanic))
}

// The record of a block that was erased n times before and is formatted now.
fn erased_record(k: Granularity, n: u32) -> BlockInfo
    requires { n < 4294967295 }
    ensures { result ≡ erased_record k n }
{
    BlockInfo {
        header: BlockHeader {
            kind: BlockHeaderKind::Known(BlockType::Undefined),
            erase_count: n + 1,
        },
        used_bytes: k.block_header() as u32,
        allow_alloc: true,
    }
}

// Formats a Known block that was erased n times, and stores its new record.
fn renew(g: Geometry, image: &mut [u8], table: &mut [u32], f: Fuse, b: u32, n: u32) -> Stored
    requires has_record { HasRecord table.old b }
    requires image_value { check_of g (length image.old) ≡ 0 }
    ensures { ended result (both image.new table.new) ≡ run f (renewing g b n) (both image.old table.old) }
{
    if n == 4294967295 {
        return worn_out(g, image, f, b);
    }
    let left = format::format_block(g, image, f, b)?;
    table::put(table, b, erased_record(g.granularity, n));
    Ok(left)
}

// What a pass does to a block that it decided to erase: 2 unless its kind is known.
pub(crate) fn erase(
    g: Geometry,
    image: &mut [u8],
    table: &mut [u32],
    f: Fuse,
    b: u32,
    info: BlockInfo,
) -> Stored
    requires has_record { HasRecord table.old b }
    requires image_value { check_of g (length image.old) ≡ 0 }
    ensures { ended result (both image.new table.new) ≡ run f (erasing g b info true) (both image.old table.old) }
{
    if !info.header.kind.is_known() {
        return f.beside(Err(Refusal::FsCorrupted));
    }
    renew(g, image, table, f, b, info.header.erase_count)
}
