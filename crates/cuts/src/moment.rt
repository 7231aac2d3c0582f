// One moment of a move: the answer under a fuse, and what then stands at both places.
ghost use Rattle.std.specs.Prelude.{◌≡◌};
ghost use Rattle.medium.specs.declared.fuse.Fuse.TheVariants.{Units};
ghost use Rattle.medium.specs.Operation.{run};
ghost use Rattle.medium.specs.Refusal.{code_of};
ghost use Rattle.objects.specs.Info.{info_answer};
ghost use Rattle.moving.specs.Moving.{move_object};
ghost use Rattle.cuts.specs.Agree.{alike, agree_of};
ghost use Rattle.cuts.specs.Moment.{is_finished, apart, twin_of, seen_of, look_of, moment_of};

use medium::fuse::Fuse;
use medium::geometry::Geometry;
use medium::refusal::Refusal;
use objects::header::ObjectHeader;
use objects::location::ObjectLocation;
use objects::state::{CompositeObjectState, ObjectState};
use objects::{info, payload};

#[derive(Clone, Copy, Debug, PartialEq, Eq)]
pub struct Moment {
    pub answer: Result<(), Refusal>,
    // What each place reads as.
    pub original: Result<Option<ObjectHeader>, Refusal>,
    pub copy: Result<Option<ObjectHeader>, Refusal>,
    // Both are objects, of the same type and payload.
    pub agree: bool,
    // And both are finished, at two places.
    pub twin: bool,
}

// Whether two objects have the same type and payload.
#[tactic(auto, unfolding(crate::specs::Agree::alike))]
fn are_alike(g: Geometry, image: &[u8], a: ObjectHeader, b: ObjectHeader) -> bool
    ensures { result ≡ alike g a b image.now }
{
    a.state.type_byte() == b.state.type_byte() && payload::is_same(g, image, a, b)
}

#[tactic(auto, unfolding(crate::specs::Agree::agree_of))]
fn do_agree(
    g: Geometry,
    image: &[u8],
    original: Result<Option<ObjectHeader>, Refusal>,
    copy: Result<Option<ObjectHeader>, Refusal>,
) -> bool
    ensures { result ≡ agree_of g (info_answer original) (info_answer copy) image.now }
{
    match (original, copy) {
        (Ok(Some(a)), Ok(Some(b))) => are_alike(g, image, a, b),
        _ => false,
    }
}

#[tactic(auto, unfolding(crate::specs::Moment::is_finished))]
fn is_finished(seen: Result<Option<ObjectHeader>, Refusal>) -> bool
    ensures { result ≡ is_finished (info_answer seen) }
{
    match seen {
        Ok(Some(h)) => h.state.is(ObjectState::Finalized),
        _ => false,
    }
}

#[tactic(auto, unfolding(crate::specs::Moment::apart))]
fn are_apart(from: ObjectLocation, to: ObjectLocation) -> bool
    ensures { result ≡ apart from to }
{
    from != to
}

#[tactic(auto, unfolding(crate::specs::Moment::twin_of))]
fn are_twins(
    from: ObjectLocation,
    to: ObjectLocation,
    original: Result<Option<ObjectHeader>, Refusal>,
    copy: Result<Option<ObjectHeader>, Refusal>,
) -> bool
    ensures { result ≡ twin_of from to (info_answer original) (info_answer copy) }
{
    are_apart(from, to) && is_finished(original) && is_finished(copy)
}

// What stands at both places.
#[tactic(auto, unfolding(crate::specs::Moment::look_of))]
fn look(
    g: Geometry,
    image: &[u8],
    from: ObjectLocation,
    to: ObjectLocation,
    answer: Result<(), Refusal>,
) -> Moment
    ensures { seen_of result ≡ look_of g from to (code_of answer) image.now }
{
    let original = info::read(g, image, from);
    let copy = info::read(g, image, to);
    let agree = do_agree(g, image, original, copy);
    Moment {
        answer: answer,
        original: original,
        copy: copy,
        agree: agree,
        twin: agree && are_twins(from, to, original, copy),
    }
}

// Moves the object under a fuse of so many units, and looks at both places.
pub fn move_under(
    g: Geometry,
    image: &mut [u8],
    fuse: u32,
    h: ObjectHeader,
    to: ObjectLocation,
) -> Moment
    ensures value { seen_of result ≡ moment_of g h to (run (Units fuse) (move_object g h to) image.old) }
    ensures image_after { image.new ≡ (run (Units fuse) (move_object g h to) image.old).state }
{
    let answer = match moving::move_object(g, image, Fuse::Units(fuse), h, to) {
        Ok(_) => Ok(()),
        Err(stopped) => Err(stopped.refusal),
    };
    look(g, image, h.location, to, answer)
}
