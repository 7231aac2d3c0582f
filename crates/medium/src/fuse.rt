// The fuse: how many more units may be programmed before the power goes. And what a store answers.
ghost use Rattle.std.specs.Prelude.{◌≡◌};
ghost use Rattle.medium.specs.Fuse.{spend_of, granted_of, stored_of, stored_number, kept_by};

use crate::refusal::Refusal;

// No Option: None would read as no power left, and Absent means that it never goes.
#[derive(Clone, Copy, Debug, PartialEq, Eq)]
pub enum Fuse {
    Absent,
    Units(u32),
}

// A refusal of a store, and the fuse that is left.
#[derive(Clone, Copy, Debug, PartialEq, Eq)]
pub struct Stopped {
    pub refusal: Refusal,
    pub fuse: Fuse,
}

// What a store leaves: the fuse to go on with, or why it stopped.
pub type Stored = Result<Fuse, Stopped>;

// The same of a store that hands a value on.
pub type Ended<T> = Result<(T, Fuse), Stopped>;

impl Fuse {
    // An answer that took no power, with this fuse beside a refusal.
    pub fn beside<T: Copy>(self, answer: Result<T, Refusal>) -> Result<T, Stopped>
        ensures { result ≡ kept_by self answer }
    {
        match answer {
            Ok(value) => Ok(value),
            Err(refusal) => Err(Stopped {
                refusal: refusal,
                fuse: self,
            }),
        }
    }
}

// The number of a store's answer: 0 where it is done.
pub fn number(answer: Stored) -> u8
    ensures { result ≡ stored_number answer }
{
    match answer {
        Ok(_) => 0,
        Err(stopped) => stopped.refusal.number(),
    }
}

// What a store of n units gets of the fuse: all, with the fuse that is left, or fewer units.
pub(crate) fn spend(f: Fuse, n: u32) -> Result<Fuse, u32>
    ensures { result ≡ spend_of f n }
{
    let Fuse::Units(k) = f else {
        return Ok(f);
    };
    if n <= k {
        Ok(Fuse::Units(k - n))
    } else {
        Err(k)
    }
}

// Of n units, those that there is power for.
pub(crate) fn granted(spent: Result<Fuse, u32>, n: u32) -> u32
    ensures { result ≡ granted_of spent n }
{
    match spent {
        Ok(_) => n,
        Err(k) => k,
    }
}

// All n were stored, or the power was lost.
pub(crate) fn outcome(spent: Result<Fuse, u32>) -> Stored
    ensures { result ≡ stored_of spent }
{
    match spent {
        Ok(fuse) => Ok(fuse),
        Err(_) => Err(Stopped {
            refusal: Refusal::PowerLost,
            fuse: Fuse::Units(0),
        }),
    }
}
