// The payload of a file's metadata object: a hash, where its name is, and where its data objects are.
ghost use Rattle.std.specs.Prelude.{◌≡◌, ◌+◌, ◌≤◌, ◌<◌, length};
ghost use Rattle.medium.specs.Refusal.{answer_of};
ghost use Rattle.objects.specs.Header.{payload_size_of};
ghost use Rattle.objects.specs.Metadata.{number_at, read_metadata, metadata_at, list_end, listable, listed_at, past_location, next_location_answer, next_location, reset_of};

use crate::header::ObjectHeader;
use crate::location::ObjectLocation;
use crate::{info, location, payload};
use medium::geometry::Geometry;
use medium::refusal::Refusal;

#[derive(Clone, Copy, Debug, PartialEq, Eq)]
pub struct MetadataObjectHeader {
    pub object: ObjectHeader,
    pub hash: u32,
    pub name: ObjectLocation,
    pub cursor: usize,
}

// The number at a place, of as many bytes as are lent for it.
#[tactic(auto, unfolding(crate::specs::Metadata::number_at))]
fn number_at(
    g: Geometry,
    image: &[u8],
    block: u32,
    at: usize,
    raw: &mut [u8],
) -> Result<u32, Refusal>
    requires { length raw.old ≤ 4 }
    ensures { answer_of result ≡ number_at g block at (length raw.old) image.now }
{
    medium::read(g, image, block, at, raw)?;
    Ok(location::number(raw) as u32)
}

// The location at a place, through bytes that are lent for it.
#[tactic(auto, unfolding(crate::specs::Metadata::location_at))]
fn location_in(
    g: Geometry,
    image: &[u8],
    block: u32,
    at: usize,
    raw: &mut [u8],
) -> Result<ObjectLocation, Refusal>
    requires { length raw.old ≡ g.c + g.s }
    ensures { answer_of result ≡ Rattle.objects.specs.Metadata.location_at g block at image.now }
{
    medium::read(g, image, block, at, raw)?;
    ObjectLocation::from_bytes(g, raw)
}

fn location_at(g: Geometry, image: &[u8], block: u32, at: usize) -> Result<ObjectLocation, Refusal>
    requires { (g.c ≤ 3) × (g.s ≤ 3) }
    ensures { answer_of result ≡ Rattle.objects.specs.Metadata.location_at g block at image.now }
{
    let n = (g.c as usize) + (g.s as usize);
    let mut buffer = [0u8; 6];
    location_in(g, image, block, at, &mut buffer[..n])
}

// Hash and name location of an object, whatever its payload size.
#[tactic(auto, unfolding(crate::specs::Metadata::read_metadata))]
pub fn read(g: Geometry, image: &[u8], h: ObjectHeader) -> Result<MetadataObjectHeader, Refusal>
    ensures { answer_of result ≡ read_metadata g h image.now }
{
    let block = h.location.block;
    let at = payload::at(g, h);
    let mut raw = [0u8; 4];
    let hash = number_at(g, image, block, at, &mut raw)?;
    let name = location_at(g, image, block, at + 4)?;
    Ok(MetadataObjectHeader {
        object: h,
        hash: hash,
        name: name,
        cursor: 0,
    })
}

// The same of the object at a place: 2 where none is there.
#[tactic(auto, unfolding(crate::specs::Metadata::metadata_at))]
pub fn read_at(
    g: Geometry,
    image: &[u8],
    at: ObjectLocation,
) -> Result<MetadataObjectHeader, Refusal>
    ensures { answer_of result ≡ metadata_at g at image.now }
{
    let Some(header) = info::read(g, image, at)? else {
        return Err(Refusal::FsCorrupted);
    };
    read(g, image, header)
}

impl MetadataObjectHeader {
    // How far the list of locations reaches: 0 where the size is unset, 9 where hash and name have no room.
    fn list_end(self, g: Geometry) -> Result<usize, Refusal>
        ensures { answer_of result ≡ list_end g (payload_size_of g.s self.object) }
    {
        let Some(n) = self.object.payload_size(g.s) else {
            return Ok(0);
        };
        let least = 4 + (g.c as usize) + (g.s as usize);
        let size = n as usize;
        if size < least {
            return Err(Refusal::RustPanic);
        }
        Ok(size - least)
    }

    #[tactic(auto, unfolding(crate::specs::Metadata::listable))]
    fn may_list(self, g: Geometry, room: usize) -> Result<usize, Refusal>
        ensures { answer_of result ≡ listable g self room }
    {
        medium::geometry::check(g, room)?;
        if 65536 < self.cursor {
            return Err(Refusal::InvalidOperation);
        }
        self.list_end(g)
    }

    // Where the next location stands.
    fn listed_at(self, g: Geometry) -> usize
        requires { self.cursor ≤ 65536 }
        ensures { result ≡ listed_at g self }
    {
        payload::at(g, self.object) + (4 + (g.c as usize) + (g.s as usize)) + self.cursor
    }

    fn past_location(self, g: Geometry) -> MetadataObjectHeader
        requires { self.cursor ≤ 65536 }
        ensures { result ≡ past_location g self }
    {
        MetadataObjectHeader {
            cursor: self.cursor + ((g.c as usize) + (g.s as usize)),
            ..self
        }
    }

    // The location of the next data object, with the header behind it; none at the list's end.
    #[tactic(auto, unfolding(crate::specs::Metadata::listable, crate::specs::Metadata::next_location))]
    pub fn next_object_location(
        self,
        g: Geometry,
        image: &[u8],
    ) -> Result<Option<(ObjectLocation, MetadataObjectHeader)>, Refusal>
        ensures { next_location_answer result ≡ next_location g self image.now }
    {
        let end = self.may_list(g, image.len())?;
        if end <= self.cursor {
            return Ok(None);
        }
        let next = location_at(g, image, self.object.location.block, self.listed_at(g))?;
        Ok(Some((next, self.past_location(g))))
    }

    // Back to the first data object.
    pub fn reset(self) -> MetadataObjectHeader
        ensures { result ≡ reset_of self }
    {
        MetadataObjectHeader { cursor: 0, ..self }
    }
}
