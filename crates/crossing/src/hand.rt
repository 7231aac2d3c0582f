// An answer that goes out as a number and a value: the value is written where the call is done, and is as it was where it is refused.
ghost use Rattle.std.specs.Prelude.{◌≡◌};
ghost use Rattle.medium.specs.Refusal.{answer_of};
ghost use Rattle.crossing.specs.Crossing.{told, telling, plain};
ghost use Rattle.crossing.specs.Values.{header_numbers, location_numbers, iterator_numbers};
ghost use Rattle.crossing.specs.Records.{record_numbers, block_header_numbers, flag_number};

use blocks::header::BlockHeader;
use blocks::record::BlockInfo;
use medium::refusal::Refusal;
use objects::header::ObjectHeader;
use objects::iterator::ObjectIterator;
use objects::location::ObjectLocation;

// A value that crosses as numbers.
pub trait Crosses: Copy {
    type Numbers: Copy;

    ghost numbers: { Self → Self.Numbers };

    fn numbers(self) -> Self::Numbers
        ensures { result ≡ numbers self };
}

// The number of an answer, and the value where there is one.
#[tactic(auto, unfolding(crate::specs::Crossing::telling_by))]
pub fn hand<T: Crosses>(answer: Result<T, Refusal>, out: &mut T::Numbers) -> u8
    ensures { told result out.new ≡ telling T.numbers out.old (answer_of answer) }
{
    match answer {
        Ok(value) => {
            *out = value.numbers();
            0
        }
        Err(refusal) => refusal.number(),
    }
}

impl Crosses for ObjectHeader {
    type Numbers = [u32; 5];

    ghost numbers = { header_numbers };

    fn numbers(self) -> [u32; 5] {
        let kind = self.state.type_byte() as u32;
        let rank = self.state.rank() as u32;
        [
            kind,
            rank,
            self.size,
            self.location.block,
            self.location.offset,
        ]
    }
}

impl Crosses for ObjectLocation {
    type Numbers = [u32; 2];

    ghost numbers = { location_numbers };

    fn numbers(self) -> [u32; 2] {
        [self.block, self.offset]
    }
}

impl Crosses for ObjectIterator {
    type Numbers = [u32; 2];

    ghost numbers = { iterator_numbers };

    fn numbers(self) -> [u32; 2] {
        self.location.numbers()
    }
}

impl Crosses for BlockHeader {
    type Numbers = [u32; 2];

    ghost numbers = { block_header_numbers };

    fn numbers(self) -> [u32; 2] {
        [u32::from(self.kind), self.erase_count]
    }
}

impl Crosses for BlockInfo {
    type Numbers = [u32; 4];

    ghost numbers = { record_numbers };

    fn numbers(self) -> [u32; 4] {
        let mark = self.mark();
        [
            u32::from(self.header.kind),
            self.header.erase_count,
            self.used_bytes,
            mark,
        ]
    }
}

impl Crosses for bool {
    type Numbers = u32;

    ghost numbers = { flag_number };

    fn numbers(self) -> u32 {
        self as u32
    }
}

impl Crosses for usize {
    type Numbers = u64;

    ghost numbers = { plain };

    fn numbers(self) -> u64 {
        self as u64
    }
}
