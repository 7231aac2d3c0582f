// The sweep: of metadata objects that stand twice the first stays, and what no file refers to is deleted.
//
// Metadata objects are the Finalized ones that are listed in Metadata blocks, data and name objects those in Data blocks; other blocks are not
// looked at. Everything is walked in the order of a lookup. No memory is needed beside the image; with words that the caller lends for notes it takes
// less time, and is the same.
//
// Always true: what is refused is refused before any store; nothing but delete marks is stored, one unit each.
#![tactic(auto)]

mod check;
mod notes;
mod refs;
mod slots;
mod twins;
mod unreferred;

ghost use Rattle.std.specs.Prelude.{◌≡◌, [], ◌∷◌, length};
ghost use Rattle.medium.specs.Operation.{run, ended};
ghost use Rattle.medium.specs.Refusal.{code_of};
ghost use Rattle.medium.specs.Beside.{both};
ghost use Rattle.sweep.specs.Sweep;
ghost use Rattle.sweep.specs.Sweep.{words_fit, sweep_with, words_after};

use medium::fuse::{Fuse, Stopped, Stored};
use medium::geometry::Geometry;
use medium::refusal::Refusal;

// An answer, with how many twins and how many objects that nothing refers to were deleted before it. No Result: the numbers come back after a
// refusal too.
#[derive(Clone, Copy, Debug, PartialEq, Eq)]
pub struct Swept {
    pub answer: Stored,
    pub twins: u32,
    pub unreferred: u32,
}

// What is refused, the twins, and the others. Notes are made where there is a word for each byte of the image.
fn phases(g: Geometry, image: &mut [u8], f: Fuse, words: &mut [u32]) -> Swept
    ensures { ended result.answer (both image.new (result.twins ∷ result.unreferred ∷ [])) ≡ run f (Rattle.sweep.specs.Sweep.sweep g) (both image.old (0 ∷ 0 ∷ [])) }
{
    if let Err(refusal) = check::check(g, image, words) {
        return stopped(refusal, f);
    }
    let t = twins::delete_twins(g, image, f, words);
    let Ok(left) = t.answer else {
        return t;
    };
    unreferred::delete_unreferred(g, image, left, words, t.twins)
}

// How it ended, and how many were deleted.
pub(crate) fn ended_with(answer: Stored, twins: u32, unreferred: u32) -> Swept
    ensures { result ≡ record { answer = answer; twins = twins; unreferred = unreferred } }
{
    Swept {
        answer: answer,
        twins: twins,
        unreferred: unreferred,
    }
}

// Refused before anything was deleted.
fn stopped(refusal: Refusal, f: Fuse) -> Swept
    ensures { result ≡ record { answer = Err (record { refusal = refusal; fuse = f }); twins = 0; unreferred = 0 } }
{
    let answer = Err(Stopped {
        refusal: refusal,
        fuse: f,
    });
    ended_with(answer, 0, 0)
}

// Whether there is a word for each byte of the image.
#[tactic(auto, using(medium::proofs::Refusals::passed, crate::proofs::Turns::fit_stop, crate::proofs::Turns::fit_other))]
fn words_fit(g: Geometry, room: usize, words: usize) -> Result<(), Refusal>
    ensures { code_of result ≡ Rattle.sweep.specs.Sweep.words_fit g room words }
{
    medium::geometry::check(g, room)?;
    if words != room {
        return Err(Refusal::BadRoom);
    }
    Ok(())
}

// With no memory but a few words: what was met is searched for again.
pub fn sweep(g: Geometry, image: &mut [u8], f: Fuse) -> Swept
    ensures { ended result.answer (both image.new (result.twins ∷ result.unreferred ∷ [])) ≡ run f (Rattle.sweep.specs.Sweep.sweep g) (both image.old (0 ∷ 0 ∷ [])) }
{
    let mut none = [0; 1];
    phases(g, image, f, &mut none)
}

// The same, sooner: what was met is noted in the words, of which there is one for each byte of the image. A flat slice, since C lends it: one phase
// has marks of places in it, another slots of three.
pub fn sweep_with(g: Geometry, image: &mut [u8], f: Fuse, words: &mut [u32]) -> Swept
    ensures unreferred_after { ended result.answer (both image.new (result.twins ∷ result.unreferred ∷ [])) ≡ run f (sweep_with g (length words.old)) (both image.old (0 ∷ 0 ∷ [])) }
    ensures words_after { words.new ≡ words_after (words_fit g (length image.old) (length words.old)) words.old }
{
    if let Err(refusal) = words_fit(g, image.len(), words.len()) {
        return stopped(refusal, f);
    }
    let s = phases(g, image, f, words);
    words.fill(0);
    s
}
