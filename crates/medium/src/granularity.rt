// How finely the chip is programmed, and every length and place that follows from it. One column of document 01's tables each.
ghost use Rattle.std.specs.Prelude.{◌≡◌, ◌^◌, ◌≤◌, ◌<◌};
ghost use Rattle.medium.specs.Refusal.{answer_of};
ghost use Rattle.medium.specs.Granularity.{granularity_of, widest_unit, byte_of, width_of, units_in, align_of, most_strict, finish_at, delete_at, finish_mark, size_at, header, block_header, type_at, layout_bit};

use crate::refusal::Refusal;

#[derive(Clone, Copy, Debug, PartialEq, Eq)]
pub enum Granularity {
    Bit,
    Word1,
    Word4,
}

// The most that any granularity takes, for buffers that hold each: a unit, the bytes of an object's state, an object header, a block header.
impl Granularity {
    pub const WIDEST_UNIT: usize = 4;

    pub const LONGEST_STATE: usize = 12;

    pub const LONGEST_OBJECT_HEADER: usize = 16;

    pub const LONGEST_BLOCK_HEADER: usize = 12;
}

// The byte of the geometry record.
impl Granularity {
    pub const BIT: u8 = 0;

    pub const WORD1: u8 = 1;

    pub const WORD4: u8 = 4;
}

// 6 for a byte that says none.
impl TryFrom<u8> for Granularity {
    type Error = Refusal;

    ghost try_from_gives = { λ b r. answer_of r ≡ granularity_of b };

    fn try_from(b: u8) -> Result<Self, Refusal> {
        match b {
            Self::BIT => Ok(Granularity::Bit),
            Self::WORD1 => Ok(Granularity::Word1),
            Self::WORD4 => Ok(Granularity::Word4),
            _ => Err(Refusal::BadGeometry),
        }
    }
}

impl From<Granularity> for u8 {
    ghost from_gives = { λ k b. b ≡ byte_of k };

    fn from(k: Granularity) -> u8 {
        match k {
            Granularity::Bit => Granularity::BIT,
            Granularity::Word1 => Granularity::WORD1,
            Granularity::Word4 => Granularity::WORD4,
        }
    }
}

// Units.
impl Granularity {
    pub const BYTE_WIDTH: usize = 1;

    pub const WORD4_WIDTH: usize = 4;

    // The bytes of one unit.
    pub fn width(self) -> usize
        ensures { result ≡ width_of self }
    {
        match self {
            Granularity::Bit => Self::BYTE_WIDTH,
            Granularity::Word1 => Self::BYTE_WIDTH,
            Granularity::Word4 => Self::WORD4_WIDTH,
        }
    }

    // "Aligned up": n bytes in whole units of w, the least multiple of w that is not below n.
    pub fn align(self, n: u32) -> usize
        ensures { result ≡ align_of (width_of self) n }
    {
        let w = self.width();
        let n = n as usize;
        (n + w - 1) / w * w
    }
}

// The strict mark.
impl Granularity {
    // The most that it can be: it goes with words only, since by the bit a delete programs the finish mark's byte again.
    pub fn most_strict(self) -> u8
        ensures { result ≡ most_strict self }
    {
        match self {
            Granularity::Bit => 0,
            Granularity::Word1 => 1,
            Granularity::Word4 => 1,
        }
    }
}

// The bytes of an object.
impl Granularity {
    pub const BIT_SIZE_AT: usize = 2;

    pub const WORD1_SIZE_AT: usize = 3;

    pub const WORD4_SIZE_AT: usize = 12;

    pub const WORD4_OBJECT_HEADER: usize = 16;

    // Where the mark of a finished object stands.
    pub fn finish_at(self) -> usize
        ensures { result ≡ finish_at self }
    {
        match self {
            Granularity::Bit => 1,
            Granularity::Word1 => 1,
            Granularity::Word4 => 4,
        }
    }

    // Where the mark of a deleted object stands.
    pub fn delete_at(self) -> usize
        ensures { result ≡ delete_at self }
    {
        match self {
            Granularity::Bit => 1,
            Granularity::Word1 => 2,
            Granularity::Word4 => 8,
        }
    }

    // The byte that finishes an object.
    pub fn finish_mark(self) -> u8
        ensures { result ≡ finish_mark self }
    {
        match self {
            Granularity::Bit => 0xF0,
            Granularity::Word1 => 0x00,
            Granularity::Word4 => 0x00,
        }
    }

    // Where the size field stands: the bytes before it are the composite state.
    pub fn size_at(self) -> usize
        ensures { result ≡ size_at self }
    {
        match self {
            Granularity::Bit => Self::BIT_SIZE_AT,
            Granularity::Word1 => Self::WORD1_SIZE_AT,
            Granularity::Word4 => Self::WORD4_SIZE_AT,
        }
    }

    // The length of an object header, with a size field of s bytes.
    pub fn object_header(self, s: u8) -> usize
        ensures { result ≡ header self s }
    {
        match self {
            Granularity::Bit => Self::BIT_SIZE_AT + (s as usize),
            Granularity::Word1 => Self::WORD1_SIZE_AT + (s as usize),
            Granularity::Word4 => Self::WORD4_OBJECT_HEADER,
        }
    }
}

// The bytes of a block.
impl Granularity {
    pub const BYTE_BLOCK_HEADER: usize = 8;

    pub const WORD4_BLOCK_HEADER: usize = 12;

    pub fn block_header(self) -> usize
        ensures { result ≡ block_header self }
    {
        match self {
            Granularity::Bit => Self::BYTE_BLOCK_HEADER,
            Granularity::Word1 => Self::BYTE_BLOCK_HEADER,
            Granularity::Word4 => Self::WORD4_BLOCK_HEADER,
        }
    }

    // Where the type of a block stands.
    pub fn type_at(self) -> usize
        ensures { result ≡ type_at self }
    {
        match self {
            Granularity::Bit => 3,
            Granularity::Word1 => 3,
            Granularity::Word4 => 8,
        }
    }

    // What a block's layout byte adds for either Word.
    pub fn layout_bit(self) -> u8
        ensures { result ≡ layout_bit self }
    {
        match self {
            Granularity::Bit => 0,
            Granularity::Word1 => 1,
            Granularity::Word4 => 1,
        }
    }
}

// The units of w bytes that n bytes take.
pub(crate) fn units(w: usize, n: usize) -> usize
    requires le_w { (1 ≤ w) × (w ≤ widest_unit) }
    requires n_bound { n < 2 ^ 63 }
    ensures { result ≡ units_in w n }
{
    (n + (w - 1)) / w
}
