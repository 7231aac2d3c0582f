// Notes in lent words, so that what was met once need not be searched for. There is one word for each byte of the image, or there are none to
// speak of, and then everything is searched for.
ghost use Rattle.std.specs.Prelude.{◌≡◌};
ghost use Rattle.medium.specs.Geometry.{address};
ghost use Rattle.sweep.specs.Notes.{note, is_noted};

use medium::geometry::Geometry;
use objects::location::ObjectLocation;

// The word of a place.
fn word_of(g: Geometry, at: ObjectLocation) -> usize
    ensures { result ≡ address g at.block at.offset }
{
    (at.block as usize) * (g.size as usize) + (at.offset as usize)
}

// Notes a place, as far as there are words.
#[tactic(auto, unfolding(crate::specs::Notes::note))]
pub(crate) fn note(g: Geometry, words: &mut [u32], at: ObjectLocation)
    ensures { words.new ≡ Rattle.sweep.specs.Notes.note g at words.old }
{
    if g.size <= at.offset {
        return;
    }
    let i = word_of(g, at);
    if i < words.len() {
        words[i] = 1;
    }
}

#[tactic(auto, unfolding(crate::specs::Notes::is_noted))]
pub(crate) fn is_noted(g: Geometry, words: &[u32], at: ObjectLocation) -> bool
    ensures { result ≡ is_noted g at words.now }
{
    if g.size <= at.offset {
        return false;
    }
    let i = word_of(g, at);
    if words.len() <= i {
        return false;
    }
    words[i] != 0
}
