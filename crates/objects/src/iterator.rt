// Listing: from object to object through a block.
ghost use Rattle.std.specs.Prelude.{◌≡◌, ◌+◌, ◌<◌};
ghost use Rattle.objects.specs.Listing.{placed, start_of, next_answer, next_of};

use crate::header::ObjectHeader;
use crate::info;
use crate::location::ObjectLocation;
use medium::geometry::Geometry;
use medium::refusal::Refusal;

#[derive(Clone, Copy, Debug, PartialEq, Eq)]
pub struct ObjectIterator {
    pub location: ObjectLocation,
}

// What stands at the iterator: an object, with the iterator behind it, or why listing ends.
#[derive(Clone, Copy, Debug, PartialEq, Eq)]
pub enum Next {
    Object(ObjectHeader, ObjectIterator),
    Free,
    End,
}

impl ObjectIterator {
    // Right after the header of a block.
    pub fn new(g: Geometry, block: u32) -> ObjectIterator
        ensures { result ≡ start_of g block }
    {
        ObjectIterator {
            location: ObjectLocation {
                block: block,
                offset: g.granularity.block_header() as u32,
            },
        }
    }

    // The iterator a span further on.
    fn past(self, n: usize) -> ObjectIterator
        requires { self.location.offset + n < 4294967296 }
        ensures { result ≡ placed self.location.block (self.location.offset + n) }
    {
        ObjectIterator {
            location: ObjectLocation {
                block: self.location.block,
                offset: self.location.offset + (n as u32),
            },
        }
    }

    // The object here and the iterator behind it; or why there is none.
    #[tactic(auto, unfolding(crate::specs::Listing::next_of))]
    pub fn next(self, g: Geometry, image: &[u8]) -> Result<Next, Refusal>
        ensures { next_answer result ≡ next_of g self image.now }
    {
        medium::geometry::check(g, image.len())?;
        let at = self.location;
        let k = g.granularity;
        if (g.size as usize) <= (at.offset as usize) + k.object_header(g.s) {
            return Ok(Next::End);
        }
        let Some(header) = info::read(g, image, at)? else {
            return Ok(Next::Free);
        };
        Ok(Next::Object(header, self.past(info::span(header, k, g.s))))
    }

    pub fn current_offset(self) -> u32
        ensures { result ≡ self.location.offset }
    {
        self.location.offset
    }
}
