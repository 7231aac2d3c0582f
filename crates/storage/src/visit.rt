// The order in which the objects of a store are looked at: the Finalized ones of the blocks of one type, by block and then by offset.
ghost use Rattle.std.specs.Prelude.{◌≡◌, ◌+◌, ◌<◌};
ghost use Rattle.medium.specs.Refusal.{answer_of};
ghost use Rattle.objects.specs.Listing.{next_of};
ghost use Rattle.storage.specs.Order.{is_of, open_of, start_visit, step_of, visit_answer, next_visit, Goes};

use blocks::header::{BlockHeader, BlockHeaderKind, BlockType};
use medium::geometry::Geometry;
use medium::refusal::Refusal;
use objects::header::ObjectHeader;
use objects::iterator::{Next, ObjectIterator};
use objects::state::ObjectState;

// A place in a block, and whether the block's type was looked at already.
#[derive(Clone, Copy, Debug, PartialEq, Eq)]
pub struct Visitor {
    pub place: ObjectIterator,
    pub opened: bool,
}

// One step in a block: a Finalized object, with the visitor behind it; or only where to go on, past an object that is not or past the
// block's last one. No Option: a visitor comes back in both cases.
#[derive(Clone, Copy, Debug, PartialEq, Eq)]
enum Step {
    Object(ObjectHeader, Visitor),
    On(Visitor),
}

// Whether a block is of a type, by its header.
fn is_of(g: Geometry, image: &[u8], block: u32, t: BlockType) -> Result<bool, Refusal>
    ensures { answer_of result ≡ is_of g t block image.now }
{
    let h = BlockHeader::read(g, image, block)?;
    Ok(h.kind == BlockHeaderKind::Known(t))
}

impl Visitor {
    // At the first block.
    pub fn new(g: Geometry) -> Visitor
        ensures { result ≡ start_visit g 0 }
    {
        Visitor {
            place: ObjectIterator::new(g, 0),
            opened: false,
        }
    }

    #[tactic(auto, unfolding(crate::specs::Order::open_of))]
    fn is_open(self, g: Geometry, image: &[u8], t: BlockType) -> Result<bool, Refusal>
        ensures { answer_of result ≡ open_of g t self image.now }
    {
        if self.opened {
            return Ok(true);
        }
        is_of(g, image, self.place.location.block, t)
    }

    // At the next block.
    fn onward(self, g: Geometry) -> Visitor
        requires { self.place.location.block < 4294967295 }
        ensures { result ≡ start_visit g (self.place.location.block + 1) }
    {
        Visitor {
            place: ObjectIterator::new(g, self.place.location.block + 1),
            opened: false,
        }
    }

    // One object further in a block that is open, or behind its last one to the next block.
    #[tactic(auto, unfolding(crate::specs::Order::step_of), using(medium::proofs::Refusals::passed))]
    fn step(self, g: Geometry, image: &[u8]) -> Result<Step, Refusal>
        requires { self.place.location.block < 4294967295 }
        ensures { answer_of result ≡ step_of g self (next_of g self.place image.now) }
    {
        match self.place.next(g, image)? {
            Next::Free => Ok(Step::On(self.onward(g))),
            Next::End => Ok(Step::On(self.onward(g))),
            Next::Object(h, j) => {
                let v = Visitor {
                    place: j,
                    opened: true,
                };
                let is_finished = h.state.is(ObjectState::Finalized);
                if is_finished {
                    return Ok(Step::Object(h, v));
                }
                Ok(Step::On(v))
            }
        }
    }

    // The next Finalized object of the blocks of a type, from here on, with the visitor behind it; none at the end of the store.
    pub fn next(
        self,
        g: Geometry,
        image: &[u8],
        t: BlockType,
    ) -> Result<Option<(ObjectHeader, Visitor)>, Refusal>
        ensures result_value { visit_answer result ≡ next_visit g t self image.now }
        ensures goes { Goes g t self image.now result }
    {
        medium::geometry::check(g, image.len())?;
        let mut v = self;
        while v.place.location.block < g.count {
            if v.is_open(g, image, t)? {
                match v.step(g, image)? {
                    Step::Object(h, w) => return Ok(Some((h, w))),
                    Step::On(w) => {
                        v = w;
                    }
                }
            } else {
                v = v.onward(g);
            }
        }
        Ok(None)
    }
}
