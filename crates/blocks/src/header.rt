// The header of a block: what kind of block it is, and how often it was erased.
ghost use Rattle.std.specs.Prelude.{◌≡◌, ◌≤◌, length};
ghost use Rattle.medium.specs.Refusal.{answer_of};
ghost use Rattle.medium.specs.Operation.{run, ended};
ghost use Rattle.blocks.specs.BlockHeader.{type_byte, type_number, kind_number, is_empty_kind, is_known, is_unknown, is_empty, layout_byte, type_if, wide_bytes, write_header, named, padded, marked, blank, kind_of_type, named_kind, kind_in, erase_count_in, block_header_at};
ghost use Rattle.blocks.specs.Record.{kind_of};

use medium::fuse::{Fuse, Stored};
use medium::geometry::Geometry;
use medium::granularity::Granularity;
use medium::refusal::Refusal;

#[derive(Clone, Copy, Debug, PartialEq, Eq)]
pub enum BlockType {
    Metadata,
    Data,
    // Freshly formatted: it can become either.
    Undefined,
}

impl BlockType {
    pub const METADATA: u8 = 0x55;

    pub const DATA: u8 = 0xAA;

    pub const UNDEFINED: u8 = 0xFF;

    // The number of a Known kind of this type.
    fn number(self) -> u32
        ensures { result ≡ type_number self }
    {
        match self {
            BlockType::Metadata => 2,
            BlockType::Data => 3,
            BlockType::Undefined => 4,
        }
    }
}

impl From<BlockType> for u8 {
    ghost from_gives = { λ t b. b ≡ type_byte t };

    fn from(t: BlockType) -> u8 {
        match t {
            BlockType::Metadata => BlockType::METADATA,
            BlockType::Data => BlockType::DATA,
            BlockType::Undefined => BlockType::UNDEFINED,
        }
    }
}

#[derive(Clone, Copy, Debug, PartialEq, Eq)]
pub enum BlockHeaderKind {
    Empty,
    Unknown,
    Known(BlockType),
}

impl BlockHeaderKind {
    pub fn is_empty(self) -> bool
        ensures { result ≡ is_empty_kind self }
    {
        matches!(self, BlockHeaderKind::Empty)
    }

    pub fn is_known(self) -> bool
        ensures { result ≡ is_known self }
    {
        matches!(self, BlockHeaderKind::Known(_))
    }

    pub fn is_unknown(self) -> bool
        ensures { result ≡ is_unknown self }
    {
        matches!(self, BlockHeaderKind::Unknown)
    }

    #[tactic(auto, unfolding(crate::specs::BlockHeader::kind_of_type))]
    fn of_type(b: u8) -> BlockHeaderKind
        ensures { result ≡ kind_of_type b }
    {
        match b {
            BlockType::METADATA => BlockHeaderKind::Known(BlockType::Metadata),
            BlockType::DATA => BlockHeaderKind::Known(BlockType::Data),
            BlockType::UNDEFINED => BlockHeaderKind::Known(BlockType::Undefined),
            _ => BlockHeaderKind::Unknown,
        }
    }

    // What the bytes say, the erase count apart.
    #[tactic(auto, unfolding(crate::specs::BlockHeader::kind_in), using(crate::proofs::Headers::type_within))]
    fn from_bytes(g: Geometry, raw: &[u8; Granularity::LONGEST_BLOCK_HEADER]) -> BlockHeaderKind
        requires { (g.s ≤ 3) × (g.c ≤ 3) }
        ensures { result ≡ kind_in g raw.now }
    {
        let at = g.granularity.type_at();
        let t = raw[at];
        if is_padded(g.granularity, raw) {
            return BlockHeaderKind::named(raw, layout(g), t);
        }
        BlockHeaderKind::Unknown
    }

    // The same by the bytes that are named, with the type t.
    #[tactic(auto, unfolding(crate::specs::BlockHeader::named_kind))]
    fn named(raw: &[u8; Granularity::LONGEST_BLOCK_HEADER], layout: u8, t: u8) -> BlockHeaderKind
        ensures { result ≡ named_kind layout t raw.now }
    {
        if is_marked(raw, layout) {
            return BlockHeaderKind::of_type(t);
        }
        if is_blank(raw, t) {
            return BlockHeaderKind::Empty;
        }
        BlockHeaderKind::Unknown
    }
}

// 0 Empty, 1 Unknown, 2 Metadata, 3 Data, 4 Undefined.
impl From<BlockHeaderKind> for u32 {
    ghost from_gives = { λ kind n. n ≡ kind_number kind };

    fn from(kind: BlockHeaderKind) -> u32 {
        match kind {
            BlockHeaderKind::Empty => 0,
            BlockHeaderKind::Unknown => 1,
            BlockHeaderKind::Known(t) => t.number(),
        }
    }
}

// The kind of such a number; 4 where there is none.
impl TryFrom<u32> for BlockHeaderKind {
    type Error = Refusal;

    ghost try_from_gives = { λ n r. answer_of r ≡ kind_of n };

    #[tactic(auto, unfolding(crate::specs::Record::kind_of))]
    fn try_from(n: u32) -> Result<Self, Refusal> {
        match n {
            0 => Ok(BlockHeaderKind::Empty),
            1 => Ok(BlockHeaderKind::Unknown),
            2 => Ok(BlockHeaderKind::Known(BlockType::Metadata)),
            3 => Ok(BlockHeaderKind::Known(BlockType::Data)),
            4 => Ok(BlockHeaderKind::Known(BlockType::Undefined)),
            _ => Err(Refusal::InvalidOperation),
        }
    }
}

// The layout byte: the field widths, and whether words are programmed.
fn layout(g: Geometry) -> u8
    requires { (g.s ≤ 3) × (g.c ≤ 3) }
    ensures { result ≡ layout_byte g }
{
    g.s * 64 + g.c * 4 + g.granularity.layout_bit()
}

// Whether a rule names this byte of a header: the mark and the layout, the erase count, or the type.
fn is_named(k: Granularity, i: usize) -> bool
    ensures { result ≡ named k i }
{
    if i < 3 {
        return true;
    }
    if i == k.type_at() {
        return true;
    }
    if i < 4 {
        return false;
    }
    i < 8
}

// Whether the bytes of a header that no rule names are FF.
fn is_padded(k: Granularity, raw: &[u8; Granularity::LONGEST_BLOCK_HEADER]) -> bool
    ensures { result ≡ padded k raw.now }
{
    for i in 0..k.block_header() {
        if !is_named(k, i) && raw[i] != 0xFF {
            return false;
        }
    }
    true
}

// Whether a header begins as that of a formatted block.
#[tactic(auto, unfolding(crate::specs::BlockHeader::marked))]
fn is_marked(raw: &[u8; Granularity::LONGEST_BLOCK_HEADER], layout: u8) -> bool
    ensures { result ≡ marked layout raw.now }
{
    if raw[0] != 0xBA {
        return false;
    }
    if raw[1] != 0x01 {
        return false;
    }
    raw[2] == layout
}

// Whether all that is named is FF, the type t too.
#[tactic(auto, unfolding(crate::specs::BlockHeader::blank))]
fn is_blank(raw: &[u8; Granularity::LONGEST_BLOCK_HEADER], t: u8) -> bool
    ensures { result ≡ blank raw.now t }
{
    if raw[0] != 0xFF {
        return false;
    }
    if raw[1] != 0xFF {
        return false;
    }
    if raw[2] != 0xFF {
        return false;
    }
    t == 0xFF
}

// The erase count, low byte first.
fn count(raw: &[u8; Granularity::LONGEST_BLOCK_HEADER]) -> u32
    ensures { result ≡ erase_count_in raw.now }
{
    u32::from_le_bytes([raw[4], raw[5], raw[6], raw[7]])
}

// The type at its place, and FF at the other one.
fn type_if(k: Granularity, at: usize, t: BlockType) -> u8
    ensures { result ≡ type_if k at t }
{
    if k.type_at() == at { u8::from(t) } else { 0xFF }
}

// The bytes of a header around its erase count, which stands low byte first: four before it, and the far type and FF behind it.
fn around(
    first: u8,
    second: u8,
    layout: u8,
    near: u8,
    n: u32,
    far: u8,
) -> [u8; Granularity::LONGEST_BLOCK_HEADER]
    ensures { result ≡ Rattle.blocks.specs.BlockHeader.around first second layout near n far }
{
    let two = n / 256;
    let three = two / 256;
    let mut raw = [0xFF; Granularity::LONGEST_BLOCK_HEADER];
    raw[0] = first;
    raw[1] = second;
    raw[2] = layout;
    raw[3] = near;
    raw[4] = (n % 256) as u8;
    raw[5] = (two % 256) as u8;
    raw[6] = (three % 256) as u8;
    raw[7] = (three / 256 % 256) as u8;
    raw[8] = far;
    raw
}

#[derive(Clone, Copy, Debug, PartialEq, Eq)]
pub struct BlockHeader {
    pub kind: BlockHeaderKind,
    pub erase_count: u32,
}

impl BlockHeader {
    pub fn read(g: Geometry, image: &[u8], block: u32) -> Result<BlockHeader, Refusal>
        ensures { answer_of result ≡ block_header_at g block image.now }
    {
        let mut raw = [0u8; Granularity::LONGEST_BLOCK_HEADER];
        medium::read(g, image, block, 0, &mut raw)?;
        Ok(BlockHeader {
            kind: BlockHeaderKind::from_bytes(g, &raw),
            erase_count: count(&raw),
        })
    }

    // As many bytes as the longest header has, of which this one is the first.
    fn into_bytes(self, g: Geometry) -> [u8; Granularity::LONGEST_BLOCK_HEADER]
        requires { (g.s ≤ 3) × (g.c ≤ 3) }
        ensures { result ≡ wide_bytes g self.kind self.erase_count }
    {
        let n = self.erase_count;
        match self.kind {
            BlockHeaderKind::Empty => around(0xFF, 0xFF, 0xFF, 0xFF, n, 0xFF),
            BlockHeaderKind::Unknown => around(0xFF, 0xFF, 0xFF, 0xFF, n, 0xFF),
            BlockHeaderKind::Known(t) => {
                let k = g.granularity;
                let near = type_if(k, 3, t);
                let far = type_if(k, 8, t);
                around(0xBA, 0x01, layout(g), near, n, far)
            }
        }
    }

    // Programs the header, or refuses as any store does.
    pub fn write(self, g: Geometry, image: &mut [u8], f: Fuse, block: u32) -> Stored
        ensures { ended result image.new ≡ run f (write_header g block self) image.old }
    {
        f.beside(medium::geometry::check(g, image.len()))?;
        let raw = self.into_bytes(g);
        let n = g.granularity.block_header();
        medium::write(g, image, f, block, 0, &raw[..n])
    }

    // Erased throughout: an empty kind, and no erase count either.
    pub fn is_empty(self) -> bool
        ensures { result ≡ is_empty self }
    {
        self.kind.is_empty() && self.erase_count == 4294967295
    }
}
