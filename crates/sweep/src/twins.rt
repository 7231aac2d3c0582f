// Metadata objects that stand twice: equal type and payload bytes. The first in lookup order stays.
ghost use Rattle.std.specs.Prelude.{◌≡◌, true, [], ◌∷◌, ◌++◌, length};
ghost use Rattle.medium.specs.Geometry.{check_of};
ghost use Rattle.medium.specs.Operation.{done, run, ended};
ghost use Rattle.medium.specs.Beside.{both};
ghost use Rattle.blocks.specs.declared.header.BlockType.TheVariants.{Metadata};
ghost use Rattle.storage.specs.Order.{start_visit, tour_from, tour};
ghost use Rattle.sweep.specs.Lists.{some};
ghost use Rattle.sweep.specs.Slots.{Knows};
ghost use Rattle.sweep.specs.Referring.{metadata_in};
ghost use Rattle.sweep.specs.Twins.{is_twin, before};
ghost use Rattle.sweep.specs.Sweep.{deleting_twins};

use crate::slots::Slot;
use crate::{Swept, slots};
use blocks::header::BlockType;
use medium::fuse::Fuse;
use medium::geometry::Geometry;
use objects::header::ObjectHeader;
use objects::iterator::ObjectIterator;
use objects::payload;
use objects::state::ObjectState;
use storage::visit::Visitor;

#[tactic(auto, unfolding(crate::specs::Twins::is_twin))]
fn is_twin(g: Geometry, image: &[u8], a: ObjectHeader, b: ObjectHeader) -> bool
    ensures { result ≡ is_twin g image.now a b }
{
    if a.state.type_byte() != b.state.type_byte() {
        return false;
    }
    payload::is_same(g, image, a, b)
}

// Whether one like it stands before it, in this block or a later one.
#[tactic(auto, using(crate::proofs::Walking::rest_none, crate::proofs::Walking::rest_broken, crate::proofs::Lists::some_none, crate::proofs::Lists::before_none))]
fn has_earlier(g: Geometry, image: &[u8], h: ObjectHeader, block: u32) -> bool
    requires { check_of g (length image.now) ≡ 0 }
    ensures { result ≡ some (is_twin g image.now h) (before h.location (tour_from g Metadata (start_visit g block) image.now).objects) }
{
    let mut v = Visitor {
        place: ObjectIterator::new(g, block),
        opened: false,
    };
    while let Ok(Some((e, w))) = v.next(g, image, BlockType::Metadata) {
        if h.location == e.location {
            return false;
        }
        if is_twin(g, image, h, e) {
            return true;
        }
        v = w;
    }
    false
}

// Whether one like it stands before it. It is looked for from this block on first, since the slot of its key names it.
fn has_like(g: Geometry, image: &[u8], h: ObjectHeader, block: u32) -> bool
    requires image_value { check_of g (length image.now) ≡ 0 }
    requires image_value_2 { (tour g Metadata image.now).end ≡ done tt }
    ensures { result ≡ some (is_twin g image.now h) (before h.location (metadata_in g image.now)) }
{
    if block <= h.location.block && has_earlier(g, image, h, block) {
        return true;
    }
    has_earlier(g, image, h, 0)
}

// Whether an object is a twin of an earlier one, and whether the slots know all that were met, this one too. Two facts, and neither says of the
// other whether it is there.
#[derive(Clone, Copy, Debug, PartialEq, Eq)]
struct Judged {
    twin: bool,
    sure: bool,
}

// By the slots, where they know all that were met before it: a key that is new is that of no twin. Else by a walk.
fn judge(g: Geometry, image: &[u8], words: &mut [u32], sure: bool, h: ObjectHeader) -> Judged
    requires image_value { check_of g (length image.now) ≡ 0 }
    requires image_value_2 { (tour g Metadata image.now).end ≡ done tt }
    requires knows { sure ≡ true → Knows g image.now words.old (before h.location (metadata_in g image.now)) }
    ensures twin_value { result.twin ≡ some (is_twin g image.now h) (before h.location (metadata_in g image.now)) }
    ensures knows_2 { result.sure ≡ true → Knows g image.now words.new (before h.location (metadata_in g image.now) ++ h ∷ []) }
{
    let key = slots::key(payload::lend(g, image, h));
    match slots::meet(words, key, h.location.block) {
        Slot::Met(block) => Judged {
            twin: has_like(g, image, h, block),
            sure: sure,
        },
        Slot::Full => Judged {
            twin: has_earlier(g, image, h, 0),
            sure: false,
        },
        Slot::Free(_) => {
            if sure {
                return Judged {
                    twin: false,
                    sure: true,
                };
            }
            Judged {
                twin: has_earlier(g, image, h, 0),
                sure: false,
            }
        }
    }
}

pub(crate) fn delete_twins(g: Geometry, image: &mut [u8], f: Fuse, words: &mut [u32]) -> Swept
    requires image_value { check_of g (length image.old) ≡ 0 }
    requires image_value_2 { (tour g Metadata image.old).end ≡ done tt }
    ensures unreferred_after { ended result.answer (both image.new (result.twins ∷ result.unreferred ∷ [])) ≡ run f (deleting_twins g) (both image.old (0 ∷ 0 ∷ [])) }
    ensures unreferred_value { result.unreferred ≡ 0 }
{
    words.fill(0);
    let mut v = Visitor::new(g);
    let mut fuse = f;
    let mut n: u32 = 0;
    let mut sure = true;
    while let Ok(Some((h, w))) = v.next(g, image, BlockType::Metadata) {
        let j = judge(g, image, words, sure, h);
        sure = j.sure;
        if j.twin {
            match h.update_state(g, image, fuse, ObjectState::Deleted) {
                Err(stopped) => return crate::ended_with(Err(stopped), n, 0),
                Ok((_, left)) => {
                    fuse = left;
                    n += 1;
                }
            }
        }
        v = w;
    }
    crate::ended_with(Ok(fuse), n, 0)
}
