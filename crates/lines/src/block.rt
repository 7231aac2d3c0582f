// The line of a block.
ghost use Rattle.std.specs.Prelude.{◌≡◌, ◌+◌, ◌≤◌, ◌++◌, length};
ghost use Rattle.lines.specs.Words.{field, block_type_word, kind_word};
ghost use Rattle.lines.specs.Lines.{record_text, scan_text, block_line};

use crate::line::Line;
use crate::{number, refusal, words};
use blocks::header::{BlockHeaderKind, BlockType};
use blocks::record::BlockInfo;

#[tactic(auto, unfolding(crate::specs::Words::block_type_word))]
fn put_block_type(line: &mut Line, t: BlockType)
    requires { length line.old + 10 ≤ 128 }
    ensures put { line.new ≡ line.old ++ field (block_type_word t) }
    ensures upper_bound { length line.new ≤ length line.old + 10 }
{
    match t {
        BlockType::Metadata => line.put(b" Metadata"),
        BlockType::Data => line.put(b" Data"),
        BlockType::Undefined => line.put(b" Undefined"),
    }
}

#[tactic(auto, unfolding(crate::specs::Words::kind_word))]
fn put_kind(line: &mut Line, kind: BlockHeaderKind)
    requires { length line.old + 10 ≤ 128 }
    ensures put { line.new ≡ line.old ++ field (kind_word kind) }
    ensures upper_bound { length line.new ≤ length line.old + 10 }
{
    match kind {
        BlockHeaderKind::Empty => line.put(b" Empty"),
        BlockHeaderKind::Unknown => line.put(b" Unknown"),
        BlockHeaderKind::Known(t) => put_block_type(line, t),
    }
}

// Kind, erase count, used bytes, allocation yes or no.
fn put_record(line: &mut Line, info: BlockInfo)
    requires { length line.old + 36 ≤ 128 }
    ensures put { line.new ≡ line.old ++ record_text info }
    ensures upper_bound { length line.new ≤ length line.old + 36 }
{
    put_kind(line, info.header.kind);
    number::put_field(line, info.header.erase_count);
    number::put_field(line, info.used_bytes);
    words::put_yes_no(line, info.allow_alloc)
}

#[tactic(auto, unfolding(crate::specs::Lines::scan_text))]
fn put_scan(line: &mut Line, scan: Result<BlockInfo, u8>)
    requires { length line.old + 36 ≤ 128 }
    ensures put { line.new ≡ line.old ++ scan_text scan }
    ensures upper_bound { length line.new ≤ length line.old + 36 }
{
    match scan {
        Ok(info) => put_record(line, info),
        Err(k) => refusal::put_refusal(line, k),
    }
}

// "block", its number, and what a scan of it gave.
#[tactic(auto, unfolding(crate::specs::Lines::block_line))]
pub fn block_line(block: u32, scan: Result<BlockInfo, u8>) -> Line
    ensures value { result ≡ block_line block scan }
    ensures fits { length result ≤ 128 }
{
    let mut line = Line::new();
    line.put(b"block");
    number::put_field(&mut line, block);
    put_scan(&mut line, scan);
    line.put(b"\n");
    line
}
