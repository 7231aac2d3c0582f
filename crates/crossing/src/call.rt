// What crosses in every call: a geometry and a fuse come in, 01's number and the units that are left go out.
ghost use Rattle.std.specs.Prelude.{◌≡◌};
ghost use Rattle.medium.specs.Geometry.{admit};
ghost use Rattle.crossing.specs.Crossing.{geometry_in, admit_alone, fuse_of, units_left, told_of, told_number, told_fuse};

use medium::fuse::{Fuse, Stopped};
use medium::geometry;
use medium::geometry::Geometry;
use medium::granularity::Granularity;

// The geometry that six numbers say. Where they say none it is one with no bytes, which every call refuses with 6.
#[tactic(auto, unfolding(crate::specs::Crossing::geometry_in), using(crate::proofs::Crossings::or_none_of))]
pub fn geometry(n: &[u32; 6]) -> Geometry
    ensures { result ≡ geometry_in n.now }
{
    Geometry::try_from(*n).unwrap_or(Geometry {
        granularity: Granularity::Bit,
        s: 0,
        c: 0,
        strict: 0,
        size: 0,
        count: 0,
    })
}

// The number of a value whose numbers say none, for a call with an image of so many bytes: 6 and 7 come first. C takes a number.
#[tactic(auto, using(medium::proofs::Checks::admit_pass, medium::proofs::Checks::admit_stop, medium::proofs::Refusals::not_done))]
pub fn refusal(g: Geometry, room: usize, k: u8) -> u8
    ensures { result ≡ admit g room k }
{
    match geometry::check(g, room) {
        Ok(()) => k,
        Err(first) => first.number(),
    }
}

// The same for a call with no image.
#[tactic(auto, using(crate::proofs::Crossings::alone_pass, crate::proofs::Crossings::alone_stop, medium::proofs::Refusals::not_done))]
pub fn refusal_alone(g: Geometry, k: u8) -> u8
    ensures { result ≡ admit_alone g k }
{
    match geometry::fit(g) {
        Ok(()) => k,
        Err(first) => first.number(),
    }
}

// The fuse that a flag and a count of units say.
#[tactic(auto, unfolding(crate::specs::Crossing::fuse_of))]
pub fn fuse_of(fused: bool, units: &u32) -> Fuse
    ensures { result ≡ fuse_of fused units.now }
{
    if fused {
        Fuse::Units(*units)
    } else {
        Fuse::Absent
    }
}

// A refusal of a store as C is told it: its number, which may be any, and the fuse that is left.
#[derive(Clone, Copy, Debug, PartialEq, Eq)]
pub struct Told {
    pub number: u8,
    pub fuse: Fuse,
}

impl From<Stopped> for Told {
    ghost from_gives = { λ stopped told. told ≡ told_of stopped };

    fn from(stopped: Stopped) -> Told {
        Told {
            number: stopped.refusal.number(),
            fuse: stopped.fuse,
        }
    }
}

// The number of a store's answer, and the units that it left.
pub fn hand_back(answer: Result<Fuse, Told>, units: &mut u32) -> u8
    ensures value { result ≡ told_number answer }
    ensures units_after { units.new ≡ units_left (told_fuse answer) units.old }
{
    match answer {
        Ok(fuse) => {
            leave(fuse, units);
            0
        }
        Err(told) => {
            leave(told.fuse, units);
            told.number
        }
    }
}

// Without a fuse the units stay.
fn leave(f: Fuse, units: &mut u32)
    ensures { units.new ≡ units_left f units.old }
{
    if let Fuse::Units(k) = f {
        *units = k;
    }
}
