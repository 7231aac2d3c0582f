// Data and name objects that no metadata object refers to.
ghost use Rattle.std.specs.Prelude.{◌≡◌, [], ◌∷◌, length};
ghost use Rattle.medium.specs.Geometry.{check_of};
ghost use Rattle.medium.specs.Operation.{run, ended};
ghost use Rattle.medium.specs.Beside.{both};
ghost use Rattle.sweep.specs.Sweep.{deleting_unreferred};

use crate::{Swept, refs};
use blocks::header::BlockType;
use medium::fuse::Fuse;
use medium::geometry::Geometry;
use objects::state::ObjectState;
use storage::visit::Visitor;

// With so many twins deleted before them.
pub(crate) fn delete_unreferred(
    g: Geometry,
    image: &mut [u8],
    f: Fuse,
    words: &mut [u32],
    twins: u32,
) -> Swept
    requires { check_of g (length image.old) ≡ 0 }
    ensures { ended result.answer (both image.new (result.twins ∷ result.unreferred ∷ [])) ≡ run f (deleting_unreferred g) (both image.old (twins ∷ 0 ∷ [])) }
{
    refs::note_referred(g, image, words);
    let mut v = Visitor::new(g);
    let mut fuse = f;
    let mut n: u32 = 0;
    while let Ok(Some((h, w))) = v.next(g, image, BlockType::Data) {
        if !refs::is_referred(g, image, words, h.location) {
            match h.update_state(g, image, fuse, ObjectState::Deleted) {
                Err(stopped) => return crate::ended_with(Err(stopped), twins, n),
                Ok((_, left)) => {
                    fuse = left;
                    n += 1;
                }
            }
        }
        v = w;
    }
    crate::ended_with(Ok(fuse), twins, n)
}
