// Where an object is: a block and an offset, and both as bytes.
ghost use Rattle.std.specs.Prelude.{◌≡◌, ◌+◌, ◌≤◌, ◌<◌, length};
ghost use Rattle.medium.specs.Operation.{answered, unless_done};
ghost use Rattle.medium.specs.Refusal.{answer_of};
ghost use Rattle.objects.specs.Numbers.{number, bytes};
ghost use Rattle.objects.specs.Location.{into_bytes, from_bytes};

use medium::geometry::Geometry;
use medium::refusal::Refusal;

#[derive(Clone, Copy, Debug, PartialEq, Eq)]
pub struct ObjectLocation {
    pub block: u32,
    pub offset: u32,
}

// The number that bytes say, low byte first.
pub(crate) fn number(raw: &[u8]) -> usize
    requires { length raw.now ≤ 4 }
    ensures value { result ≡ Rattle.objects.specs.Numbers.number raw.now }
    ensures upper_bound { result < 4294967296 }
    ensures upper_bound_2 { length raw.now ≤ 3 → result < 16777216 }
{
    let mut n = 0;
    for byte in raw.iter().rev() {
        n = n * 256 + (*byte as usize);
    }
    n
}

// A number's low bytes, low byte first, as many as there is room for.
pub(crate) fn put_number(room: &mut [u8], n: u32)
    ensures { room.new ≡ bytes (length room.old) n }
{
    let mut left = n;
    for byte in room.iter_mut() {
        *byte = (left % 256) as u8;
        left = left / 256;
    }
}

// The geometry says how many bytes a location has, so these are no From and TryFrom.
impl ObjectLocation {
    // c bytes of block and s bytes of offset, into a lent buffer of that length, or 7.
    #[tactic(auto, unfolding(crate::specs::Location::into_bytes))]
    pub fn into_bytes(self, g: Geometry, buffer: &mut [u8]) -> Result<(), Refusal>
        ensures buffer_after { answered result buffer.new ≡ into_bytes g self (length buffer.old) }
        ensures buffer_after_2 { buffer.new ≡ unless_done result buffer.old buffer.new }
    {
        medium::geometry::fit(g)?;
        let c = g.c as usize;
        let s = g.s as usize;
        if buffer.len() != c + s {
            return Err(Refusal::BadRoom);
        }
        put_number(&mut buffer[..c], self.block);
        put_number(&mut buffer[c..], self.offset);
        Ok(())
    }

    #[tactic(auto, unfolding(crate::specs::Location::from_bytes))]
    pub fn from_bytes(g: Geometry, raw: &[u8]) -> Result<ObjectLocation, Refusal>
        ensures { answer_of result ≡ from_bytes g raw.now }
    {
        medium::geometry::fit(g)?;
        let c = g.c as usize;
        let s = g.s as usize;
        if raw.len() != c + s {
            return Err(Refusal::RustPanic);
        }
        let block = number(&raw[..c]);
        let offset = number(&raw[c..]);
        Ok(ObjectLocation {
            block: block as u32,
            offset: offset as u32,
        })
    }
}
