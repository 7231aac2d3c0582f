// Values that go out as numbers, where a call is done: headers, infos, locations, iterators.
ghost use Rattle.std.specs.Prelude.{◌≡◌};
ghost use Rattle.medium.specs.Operation.{done};
ghost use Rattle.objects.specs.Listing.{start_of};
ghost use Rattle.crossing.specs.Crossing.{units_left, told_number, told_fuse, left_of, value_of, told, telling, telling_by, two, fitting};
ghost use Rattle.crossing.specs.Values.{header_numbers, info_said, info_out, next_said, next_out, iterator_numbers};

use crate::call;
use crate::call::Told;
use crate::hand::Crosses;
use medium::fuse::Fuse;
use medium::geometry;
use medium::geometry::Geometry;
use objects::header::ObjectHeader;
use objects::iterator::{Next, ObjectIterator};

// The answer of a store of a header: number and units, and the header where it is done.
pub fn hand_back(
    answer: Result<(ObjectHeader, Fuse), Told>,
    units: &mut u32,
    out: &mut [u32; 5],
) -> u8
    ensures value { result ≡ told_number (left_of answer) }
    ensures units_after { units.new ≡ units_left (told_fuse (left_of answer)) units.old }
    ensures out_after { out.new ≡ value_of header_numbers out.old answer }
{
    match answer {
        Ok((h, fuse)) => {
            *out = h.numbers();
            call::hand_back(Ok(fuse), units)
        }
        Err(told) => call::hand_back(Err(told), units),
    }
}

// Whether an object is there: 1 and its header, or 0.
#[tactic(auto, unfolding(crate::specs::Crossing::telling_by))]
pub fn hand_info(
    answer: Result<Option<ObjectHeader>, u8>,
    found: &mut u32,
    header: &mut [u32; 5],
) -> u8
    ensures { told result (two found.new header.new) ≡ telling_by info_out (two found.old header.old) (info_said answer) }
{
    match answer {
        Ok(Some(h)) => {
            *found = 1;
            *header = h.numbers();
            0
        }
        Ok(None) => {
            *found = 0;
            0
        }
        Err(k) => k,
    }
}

// An iterator right after the header of a block. The library tests no geometry there, so 6 is given here.
#[tactic(auto, unfolding(crate::specs::Crossing::telling_by), using(crate::proofs::Crossings::fitting_on, crate::proofs::Crossings::fitting_stop, medium::proofs::Refusals::not_done))]
pub fn start(g: Geometry, block: u32, iterator: &mut [u32; 2]) -> u8
    ensures { told result iterator.new ≡ telling iterator_numbers iterator.old (fitting g (done (start_of g block))) }
{
    if let Err(e) = geometry::fit(g) {
        return e.number();
    }
    *iterator = ObjectIterator::new(g, block).numbers();
    0
}

// What stands at an iterator: 1 with the header and the iterator behind it, 0 where the place is free, 2 at the end.
#[tactic(auto, unfolding(crate::specs::Crossing::telling_by))]
pub fn hand_next(
    answer: Result<Next, u8>,
    iterator: &mut [u32; 2],
    found: &mut u32,
    header: &mut [u32; 5],
) -> u8
    ensures { told result (two iterator.new (two found.new header.new)) ≡ telling_by next_out (two iterator.old (two found.old header.old)) (next_said answer) }
{
    match answer {
        Ok(Next::Object(h, next)) => {
            *iterator = next.numbers();
            *found = 1;
            *header = h.numbers();
            0
        }
        Ok(Next::Free) => {
            *found = 0;
            0
        }
        Ok(Next::End) => {
            *found = 2;
            0
        }
        Err(k) => k,
    }
}
