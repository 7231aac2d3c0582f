// Block headers, records, types and flags that cross as numbers. Numbers that no value has give 4.
ghost use Rattle.std.specs.Prelude.{◌≡◌};
ghost use Rattle.medium.specs.Refusal.{answer_of};
ghost use Rattle.crossing.specs.Records.{block_type_of, record_of};

use blocks::header::BlockType;
use blocks::record::BlockInfo;
use medium::refusal::Refusal;

// The type that the number of a kind says, from 2 to 4.
#[tactic(auto, unfolding(crate::specs::Records::block_type_of))]
pub fn type_of(kind: u32) -> Result<BlockType, Refusal>
    ensures { answer_of result ≡ block_type_of kind }
{
    match kind {
        2 => Ok(BlockType::Metadata),
        3 => Ok(BlockType::Data),
        4 => Ok(BlockType::Undefined),
        _ => Err(Refusal::InvalidOperation),
    }
}

// The record that four numbers say.
pub fn record_of(n: &[u32; 4]) -> Result<BlockInfo, Refusal>
    ensures { answer_of result ≡ record_of n.now }
{
    BlockInfo::of_numbers(n[0], n[1], n[2], n[3])
}
