// Names that are listed, one a call.
ghost use Rattle.std.specs.Prelude.{◌≡◌, length};
ghost use Rattle.medium.specs.Operation.{done};
ghost use Rattle.crossing.specs.Crossing.{told, telling, telling_by, two, fitting};
ghost use Rattle.storage.specs.Names.{names_from, next_name};
ghost use Rattle.cface_storage.specs.Storage.{names_of, names_numbers, name_out};

use crossing::hand::Crosses;
use crossing::values;
use medium::geometry;
use medium::geometry::Geometry;
use storage::names::Names;

fn put_names(n: Names, out: &mut [u32; 2])
    ensures { out.new ≡ names_numbers n }
{
    *out = n.place.numbers();
}

// Before the first name. The library tests no geometry there, so 6 is given here.
#[tactic(auto, unfolding(crossing::specs::Crossing::telling_by), using(crossing::proofs::Crossings::fitting_on, crossing::proofs::Crossings::fitting_stop, medium::proofs::Refusals::not_done))]
pub(crate) fn start(g: Geometry, names: &mut [u32; 2]) -> u8
    ensures { told result names.new ≡ telling names_numbers names.old (fitting g (done (names_from g))) }
{
    if let Err(e) = geometry::fit(g) {
        return e.number();
    }
    put_names(Names::new(g), names);
    0
}

// The next name: 1 with it, the place of its metadata object and the names behind it, or 0 at the end.
#[tactic(auto, using(crate::proofs::Handed::name_told, crate::proofs::Handed::name_none, crate::proofs::Handed::name_refused))]
pub(crate) fn next(
    g: Geometry,
    image: &[u8],
    names: &mut [u32; 2],
    buffer: &mut [u8],
    found: &mut u32,
    location: &mut [u32; 2],
    len: &mut u64,
) -> u8
    ensures { told result (two names.new (two buffer.new (two found.new (two location.new len.new)))) ≡ telling_by name_out (two names.old (two buffer.old (two found.old (two location.old len.old)))) (next_name g (names_of names.old) (length buffer.old) image.now) }
{
    let here = Names {
        place: values::iterator_of(names),
    };
    match here.next(g, image, buffer) {
        Ok(Some(next)) => {
            put_names(next.names, names);
            *found = 1;
            *location = next.location.numbers();
            *len = next.length as u64;
            0
        }
        Ok(None) => {
            *found = 0;
            0
        }
        Err(e) => e.number(),
    }
}
