// Listing for C. What stands behind each export, and what it does, is in crates/cface.
// Made by tools/cface.
ghost use Rattle.std.specs.Prelude.{◌≡◌};
ghost use Rattle.medium.specs.Operation.{done};
ghost use Rattle.objects.specs.Listing.{start_of, next_of};
ghost use Rattle.crossing.specs.Crossing.{told, telling, fitting, geometry_in, two, telling_by};
ghost use Rattle.crossing.specs.Values.{iterator_numbers, next_out, iterator_of};

#[unsafe(no_mangle)]
pub extern "C" fn stumpchoir_iterator_new(
    geometry: &[u32; 6],
    block: u32,
    iterator: &mut [u32; 2],
) -> u8
    ensures { told result iterator.new ≡ telling iterator_numbers iterator.old (fitting (geometry_in geometry.now) (done (start_of (geometry_in geometry.now) block))) }
{
    cface::iterator_calls::stumpchoir_iterator_new(geometry, block, iterator)
}

#[unsafe(no_mangle)]
pub extern "C" fn stumpchoir_iterator_next(
    geometry: &[u32; 6],
    image: &[u8],
    iterator: &mut [u32; 2],
    found: &mut u32,
    header: &mut [u32; 5],
) -> u8
    ensures { told result (two iterator.new (two found.new header.new)) ≡ telling_by next_out (two iterator.old (two found.old header.old)) (next_of (geometry_in geometry.now) (iterator_of iterator.old) image.now) }
{
    cface::iterator_calls::stumpchoir_iterator_next(geometry, image, iterator, found, header)
}
