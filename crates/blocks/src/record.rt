// A block's record: what is known of a block once it was scanned.
ghost use Rattle.std.specs.Prelude.{◌≡◌};
ghost use Rattle.medium.specs.Refusal.{answer_of};
ghost use Rattle.blocks.specs.Record.{new_unknown, allow_number, info_of, free_space, record_empty, add_used_bytes, update_stats_after_erase};

use crate::header::{BlockHeader, BlockHeaderKind, BlockType};
use medium::geometry::Geometry;
use medium::refusal::Refusal;

#[derive(Clone, Copy, Debug, PartialEq, Eq)]
pub struct BlockInfo {
    pub header: BlockHeader,
    // The header's bytes too.
    pub used_bytes: u32,
    // Whether new objects may be allocated in the block.
    pub allow_alloc: bool,
}

impl BlockInfo {
    pub fn new_unknown() -> BlockInfo
        ensures { result ≡ new_unknown }
    {
        BlockInfo {
            header: BlockHeader {
                kind: BlockHeaderKind::Unknown,
                erase_count: 0,
            },
            used_bytes: 0,
            allow_alloc: false,
        }
    }

    // From four numbers, each by its name; 4 for a kind above 4 or a mark above 1.
    #[tactic(auto, unfolding(crate::specs::Record::info_of))]
    pub fn of_numbers(
        kind: u32,
        erase_count: u32,
        used_bytes: u32,
        mark: u32,
    ) -> Result<BlockInfo, Refusal>
        ensures { answer_of result ≡ info_of kind erase_count used_bytes mark }
    {
        let known = BlockHeaderKind::try_from(kind)?;
        if 1 < mark {
            return Err(Refusal::InvalidOperation);
        }
        Ok(BlockInfo {
            header: BlockHeader {
                kind: known,
                erase_count: erase_count,
            },
            used_bytes: used_bytes,
            allow_alloc: mark == 1,
        })
    }

    // The allow mark as a number.
    pub fn mark(self) -> u32
        ensures { result ≡ allow_number self.allow_alloc }
    {
        if self.allow_alloc { 1 } else { 0 }
    }
}

impl BlockInfo {
    // What is left of the block, or 9 where listing ran past it.
    #[tactic(auto, unfolding(crate::specs::Record::free_space))]
    pub fn free_space(self, g: Geometry) -> Result<usize, Refusal>
        ensures { answer_of result ≡ free_space g self }
    {
        medium::geometry::fit(g)?;
        if g.size < self.used_bytes {
            return Err(Refusal::RustPanic);
        }
        Ok((g.size - self.used_bytes) as usize)
    }

    // Whether there is nothing but the header.
    #[tactic(auto, unfolding(crate::specs::Record::record_empty))]
    pub fn is_empty(self, g: Geometry) -> Result<bool, Refusal>
        ensures { answer_of result ≡ record_empty g self }
    {
        medium::geometry::fit(g)?;
        Ok((self.used_bytes as usize) <= g.granularity.block_header())
    }

    // The record with an object of this total size more.
    #[tactic(auto, unfolding(crate::specs::Record::add_used_bytes))]
    pub fn add_used_bytes(self, g: Geometry, total_size: u32) -> Result<BlockInfo, Refusal>
        ensures { answer_of result ≡ add_used_bytes g self total_size }
    {
        medium::geometry::fit(g)?;
        let used = (self.used_bytes as usize) + g.granularity.align(total_size);
        if 4294967295 < used {
            return Err(Refusal::RustPanic);
        }
        Ok(BlockInfo {
            header: self.header,
            used_bytes: used as u32,
            allow_alloc: self.allow_alloc,
        })
    }

    // The record of the block once it is formatted; 9 where the erase count cannot go on.
    #[tactic(auto, unfolding(crate::specs::Record::update_stats_after_erase))]
    pub fn update_stats_after_erase(self, g: Geometry) -> Result<BlockInfo, Refusal>
        ensures { answer_of result ≡ update_stats_after_erase g self }
    {
        medium::geometry::fit(g)?;
        let n = self.header.erase_count;
        if n == 4294967295 {
            return Err(Refusal::RustPanic);
        }
        Ok(BlockInfo {
            header: BlockHeader {
                kind: BlockHeaderKind::Known(BlockType::Undefined),
                erase_count: n + 1,
            },
            used_bytes: g.granularity.block_header() as u32,
            allow_alloc: true,
        })
    }
}
