// Listing for C.
// Made by tools/cface.
ghost use Rattle.std.specs.Prelude.{◌≡◌};
ghost use Rattle.medium.specs.Operation.{done};
ghost use Rattle.objects.specs.Listing.{start_of, next_of};
ghost use Rattle.crossing.specs.Crossing.{told, telling, fitting, geometry_in, two, telling_by};
ghost use Rattle.crossing.specs.Values.{iterator_numbers, next_out, iterator_of};

use crossing::{call, outs, values};
use medium::refusal::Refusal;

// An iterator right after the header of a block.
#[unsafe(no_mangle)]
pub extern "C" fn stumpchoir_iterator_new(
    geometry: &[u32; 6],
    block: u32,
    iterator: &mut [u32; 2],
) -> u8
    ensures { told result iterator.new ≡ telling iterator_numbers iterator.old (fitting (geometry_in geometry.now) (done (start_of (geometry_in geometry.now) block))) }
{
    let g = call::geometry(geometry);
    outs::start(g, block, iterator)
}

// The object at the iterator: *found is 1 with its header and the iterator behind it. Where listing stops, iterator and header stay:
// *found is 0 at a free place, and 2 at the end of the block.
#[unsafe(no_mangle)]
pub extern "C" fn stumpchoir_iterator_next(
    geometry: &[u32; 6],
    image: &[u8],
    iterator: &mut [u32; 2],
    found: &mut u32,
    header: &mut [u32; 5],
) -> u8
    ensures { told result (two iterator.new (two found.new header.new)) ≡ telling_by next_out (two iterator.old (two found.old header.old)) (next_of (geometry_in geometry.now) (iterator_of iterator.old) image.now) }
{
    let g = call::geometry(geometry);
    let i = values::iterator_of(iterator);
    let a = i.next(g, image);
    outs::hand_next(a.map_err(Refusal::number), iterator, found, header)
}
