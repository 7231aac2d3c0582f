// Objects that are there, for C: known by their headers.
// Made by tools/cface.
ghost use Rattle.std.specs.Prelude.{◌≡◌};
ghost use Rattle.objects.specs.declared.state.ObjectDataState.TheVariants.{Valid, Deleted};
ghost use Rattle.medium.specs.Operation.{run};
ghost use Rattle.objects.specs.Header.{set_state};
ghost use Rattle.objects.specs.Info.{info_at, size_of_object};
ghost use Rattle.crossing.specs.Crossing.{told, two, telling_by, geometry_in, telling, plain, asked, crossed_with, crossing_with, fuse_of, given};
ghost use Rattle.crossing.specs.Values.{info_out, located, header_of, header_numbers};

use crossing::call::Told;
use crossing::{call, hand, outs, values};
use medium::refusal::Refusal;
use objects::info;
use objects::location::ObjectLocation;

// The object at a place: *found is 1 with its header, or 0 where the place is Free (then the header stays as it was).
#[unsafe(no_mangle)]
pub extern "C" fn stumpchoir_info_read(
    geometry: &[u32; 6],
    image: &[u8],
    block: u32,
    offset: u32,
    found: &mut u32,
    header: &mut [u32; 5],
) -> u8
    ensures { told result (two found.new header.new) ≡ telling_by info_out (two found.old header.old) (info_at (geometry_in geometry.now) (located block offset) image.now) }
{
    let g = call::geometry(geometry);
    let at = ObjectLocation {
        block: block,
        offset: offset,
    };
    let a = info::read(g, image, at);
    outs::hand_info(a.map_err(Refusal::number), found, header)
}

// Header and payload together, in bytes.
#[unsafe(no_mangle)]
pub extern "C" fn stumpchoir_info_total_size(
    geometry: &[u32; 6],
    header: &[u32; 5],
    total_size: &mut u64,
) -> u8
    ensures { told result total_size.new ≡ telling plain total_size.old (asked (geometry_in geometry.now) (header_of header.now) (λ g h. size_of_object g h)) }
{
    let g = call::geometry(geometry);
    let h = match values::header_of(header) {
        Ok(h) => h,
        Err(e) => return call::refusal_alone(g, e.number()),
    };
    let a = info::total_size(g, h);
    hand::hand(a, total_size)
}

// Stores the mark of a Finalized object, or is 10.
#[unsafe(no_mangle)]
pub extern "C" fn stumpchoir_info_finalize(
    geometry: &[u32; 6],
    image: &mut [u8],
    fused: bool,
    units: &mut u32,
    header: &mut [u32; 5],
) -> u8
    ensures { crossed_with result units.new image.new header.new ≡ crossing_with header_numbers units.old header.old (run (fuse_of fused units.old) (given (geometry_in geometry.now) (header_of header.old) (λ g h. set_state g h Valid)) image.old) }
{
    let g = call::geometry(geometry);
    let h = match values::header_of(header) {
        Ok(h) => h,
        Err(e) => return call::refusal(g, image.len(), e.number()),
    };
    let f = call::fuse_of(fused, units);
    let a = info::finalize(g, image, f, h);
    outs::hand_back(a.map_err(Told::from), units, header)
}

// Stores the mark of a Deleted object, or is 10.
#[unsafe(no_mangle)]
pub extern "C" fn stumpchoir_info_delete(
    geometry: &[u32; 6],
    image: &mut [u8],
    fused: bool,
    units: &mut u32,
    header: &mut [u32; 5],
) -> u8
    ensures { crossed_with result units.new image.new header.new ≡ crossing_with header_numbers units.old header.old (run (fuse_of fused units.old) (given (geometry_in geometry.now) (header_of header.old) (λ g h. set_state g h Deleted)) image.old) }
{
    let g = call::geometry(geometry);
    let h = match values::header_of(header) {
        Ok(h) => h,
        Err(e) => return call::refusal(g, image.len(), e.number()),
    };
    let f = call::fuse_of(fused, units);
    let a = info::delete(g, image, f, h);
    outs::hand_back(a.map_err(Told::from), units, header)
}
