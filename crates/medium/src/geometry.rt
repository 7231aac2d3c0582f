// The geometry value that is handed in with each call, and the check of it.
ghost use Rattle.std.specs.Prelude.{◌≡◌};
ghost use Rattle.medium.specs.Refusal.{answer_of, code_of};
ghost use Rattle.medium.specs.Medium.{aligned_of};
ghost use Rattle.medium.specs.Geometry.{limit_of, check_of, fit_of, fields_hold, geometry_of};

use crate::granularity::Granularity;
use crate::refusal::Refusal;

#[derive(Clone, Copy, Debug, PartialEq, Eq)]
pub struct Geometry {
    pub granularity: Granularity,
    pub s: u8,
    pub c: u8,
    pub strict: u8,
    pub size: u32,
    pub count: u32,
}

// The geometry of six numbers: granularity, s, c, strict mark, block size, block count. 6 for a number that its field cannot hold.
// The geometry's rules are tested by the calls that it is handed to.
impl TryFrom<[u32; 6]> for Geometry {
    type Error = Refusal;

    ghost try_from_gives = { λ n r. answer_of r ≡ geometry_of n };

    fn try_from(n: [u32; 6]) -> Result<Self, Refusal> {
        if !fields_hold(&n) {
            return Err(Refusal::BadGeometry);
        }
        let granularity = Granularity::try_from(n[0] as u8)?;
        Ok(Geometry {
            granularity: granularity,
            s: n[1] as u8,
            c: n[2] as u8,
            strict: n[3] as u8,
            size: n[4],
            count: n[5],
        })
    }
}

// Whether the first four numbers are bytes.
fn fields_hold(n: &[u32; 6]) -> bool
    ensures { result ≡ fields_hold n.now }
{
    if 255 < n[0] {
        return false;
    }
    if 255 < n[1] {
        return false;
    }
    if 255 < n[2] {
        return false;
    }
    n[3] <= 255
}

// 256 to the power of a field width from 1 to 3, and 0 for any other.
pub fn limit(w: u8) -> u32
    ensures { result ≡ limit_of w }
{
    match w {
        1 => 256,
        2 => 65536,
        3 => 16777216,
        _ => 0,
    }
}

// 6 where a rule of the geometry is broken.
pub fn fit(g: Geometry) -> Result<(), Refusal>
    ensures { code_of result ≡ fit_of g }
{
    let size = g.size;
    let count = g.count;
    if size < 64 {
        return Err(Refusal::BadGeometry);
    }
    if 65536 < size {
        return Err(Refusal::BadGeometry);
    }
    if size % 4 != 0 {
        return Err(Refusal::BadGeometry);
    }
    if limit(g.s) < size {
        return Err(Refusal::BadGeometry);
    }
    if count < 1 {
        return Err(Refusal::BadGeometry);
    }
    if limit(g.c) < count {
        return Err(Refusal::BadGeometry);
    }
    let total = (size as usize) * (count as usize);
    if 16777216 < total {
        return Err(Refusal::BadGeometry);
    }
    if g.granularity.most_strict() < g.strict {
        return Err(Refusal::BadGeometry);
    }
    Ok(())
}

// A geometry and the room for it: 6, or 7.
pub fn check(g: Geometry, room: usize) -> Result<(), Refusal>
    ensures { code_of result ≡ check_of g room }
{
    fit(g)?;
    let total = (g.size as usize) * (g.count as usize);
    if total != room {
        return Err(Refusal::BadRoom);
    }
    Ok(())
}

// n bytes aligned up to whole units of a sound geometry.
pub fn align(g: Geometry, n: u32) -> Result<usize, Refusal>
    ensures { answer_of result ≡ aligned_of g n }
{
    fit(g)?;
    Ok(g.granularity.align(n))
}
