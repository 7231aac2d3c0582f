// Formatting a block: erased, with the header of an Undefined block and nothing behind it.
ghost use Rattle.std.specs.Prelude.{◌≡◌};
ghost use Rattle.medium.specs.Refusal.{answer_of};
ghost use Rattle.medium.specs.Operation.{run, ended};
ghost use Rattle.blocks.specs.Format.{data_length, data_empty_at, plan_empty, plan_undefined, plan_known, plan_of, plan_at, plan_answer, labelling, renewing, format_block, format_storage, set_block_type};

use crate::header::{BlockHeader, BlockHeaderKind, BlockType};
use medium::fuse::{Fuse, Stored};
use medium::geometry::Geometry;
use medium::refusal::Refusal;

// What a format will store: nothing, a header with the count 0, or an erase and then a header with a count.
#[derive(Clone, Copy, Debug, PartialEq, Eq)]
pub enum Plan {
    Keep,
    Label,
    Renew(u32),
}

// How many bytes a block has behind its header.
fn data_length(g: Geometry) -> usize
    ensures { result ≡ data_length g }
{
    let n = g.granularity.block_header();
    let size = g.size as usize;
    if size < n { 0 } else { size - n }
}

// Whether all bytes behind the header are FF.
pub fn is_block_data_empty(g: Geometry, image: &[u8], block: u32) -> Result<bool, Refusal>
    ensures { answer_of result ≡ data_empty_at g block image.now }
{
    let at = g.granularity.block_header();
    let n = data_length(g);
    medium::reach(g, image.len(), block, at, n)?;
    Ok(medium::is_erased(medium::lend(g, image, block, at, n)))
}

// One erase more, or 2 where the count cannot go on.
#[tactic(auto, unfolding(crate::specs::Format::again))]
fn again(n: u32) -> Result<Plan, Refusal>
    ensures { plan_answer result ≡ Rattle.blocks.specs.Format.again n }
{
    if n == 4294967295 {
        return Err(Refusal::FsCorrupted);
    }
    Ok(Plan::Renew(n + 1))
}

fn plan_empty(g: Geometry, image: &[u8], block: u32) -> Result<Plan, Refusal>
    ensures { plan_answer result ≡ plan_empty (data_empty_at g block image.now) }
{
    if is_block_data_empty(g, image, block)? {
        return Ok(Plan::Label);
    }
    Ok(Plan::Renew(0))
}

fn plan_undefined(g: Geometry, image: &[u8], block: u32, n: u32) -> Result<Plan, Refusal>
    ensures { plan_answer result ≡ plan_undefined n (data_empty_at g block image.now) }
{
    if is_block_data_empty(g, image, block)? {
        return Ok(Plan::Keep);
    }
    again(n)
}

#[tactic(auto, unfolding(crate::specs::Format::plan_known))]
fn plan_known(g: Geometry, image: &[u8], block: u32, t: BlockType, n: u32) -> Result<Plan, Refusal>
    ensures { plan_answer result ≡ plan_known t n (data_empty_at g block image.now) }
{
    match t {
        BlockType::Metadata | BlockType::Data => again(n),
        BlockType::Undefined => plan_undefined(g, image, block, n),
    }
}

#[tactic(auto, unfolding(crate::specs::Format::plan_of))]
fn plan_of(g: Geometry, image: &[u8], block: u32, h: BlockHeader) -> Result<Plan, Refusal>
    ensures { plan_answer result ≡ plan_of h.kind h.erase_count (data_empty_at g block image.now) }
{
    let n = h.erase_count;
    match h.kind {
        BlockHeaderKind::Unknown => Ok(Plan::Renew(0)),
        BlockHeaderKind::Known(t) => plan_known(g, image, block, t, n),
        BlockHeaderKind::Empty => {
            if n == 4294967295 {
                return plan_empty(g, image, block);
            }
            Ok(Plan::Renew(0))
        }
    }
}

// What formatting a block will store, or why it is refused.
#[tactic(auto, unfolding(crate::specs::Format::plan_at))]
pub fn plan_format(g: Geometry, image: &[u8], block: u32) -> Result<Plan, Refusal>
    ensures { plan_answer result ≡ plan_at g block image.now }
{
    let h = BlockHeader::read(g, image, block)?;
    plan_of(g, image, block, h)
}

// The header of an Undefined block.
#[tactic(auto, unfolding(crate::specs::Format::labelling))]
fn label(g: Geometry, image: &mut [u8], f: Fuse, block: u32, n: u32) -> Stored
    ensures { ended result image.new ≡ run f (labelling g block n) image.old }
{
    let h = BlockHeader {
        kind: BlockHeaderKind::Known(BlockType::Undefined),
        erase_count: n,
    };
    h.write(g, image, f, block)
}

// An erase, and then a header with n erases.
fn renew(g: Geometry, image: &mut [u8], f: Fuse, block: u32, n: u32) -> Stored
    ensures { ended result image.new ≡ run f (renewing g block n) image.old }
{
    let left = medium::erase(g, image, f, block)?;
    label(g, image, left, block, n)
}

// Makes a block Undefined and empty, and stores only what that takes.
pub fn format_block(g: Geometry, image: &mut [u8], f: Fuse, block: u32) -> Stored
    ensures { ended result image.new ≡ run f (format_block g block) image.old }
{
    let p = f.beside(plan_format(g, image, block))?;
    match p {
        Plan::Keep => Ok(f),
        Plan::Label => label(g, image, f, block, 0),
        Plan::Renew(n) => renew(g, image, f, block, n),
    }
}

// Formats every block, from 0 up.
pub fn format_storage(g: Geometry, image: &mut [u8], f: Fuse) -> Stored
    ensures { ended result image.new ≡ run f (format_storage g) image.old }
{
    f.beside(medium::geometry::check(g, image.len()))?;
    let mut fuse = f;
    for b in 0..g.count {
        fuse = format_block(g, image, fuse, b)?;
    }
    Ok(fuse)
}

// Programs the type byte of a block.
#[tactic(auto, unfolding(crate::specs::Format::set_block_type))]
pub fn set_block_type(g: Geometry, image: &mut [u8], f: Fuse, block: u32, t: BlockType) -> Stored
    ensures { ended result image.new ≡ run f (set_block_type g block t) image.old }
{
    let at = g.granularity.type_at();
    medium::write(g, image, f, block, at, &[u8::from(t)])
}
