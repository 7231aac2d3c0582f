// What is refused before any store: a listing, the strict mark, and metadata that points to nothing.
ghost use Rattle.std.specs.Prelude.{◌≡◌, length};
ghost use Rattle.medium.specs.Geometry.{check_of};
ghost use Rattle.medium.specs.Answer.{done};
ghost use Rattle.medium.specs.Refusal.{answer_of};
ghost use Rattle.blocks.specs.declared.header.BlockType.TheVariants.{Data};
ghost use Rattle.storage.specs.Order.{tour};
ghost use Rattle.storage.specs.File.{places_of};
ghost use Rattle.sweep.specs.Lists.{every};
ghost use Rattle.sweep.specs.Referring.{is_whole, is_listed, is_sound, metadata_in, data_in, sweepable};
ghost use Rattle.sweep.specs.Notes.{noted, places_in};

use crate::notes;
use blocks::header::BlockType;
use medium::geometry::Geometry;
use medium::refusal::Refusal;
use objects::header::ObjectHeader;
use objects::iterator::ObjectIterator;
use objects::location::ObjectLocation;
use objects::metadata::MetadataObjectHeader;
use objects::{metadata, payload};
use storage::visit::Visitor;

// What ends the walk through the blocks of a type: nothing, or the refusal of a listing.
#[tactic(auto, using(medium::proofs::Refusals::passed, crate::proofs::Walking::rest_is, crate::proofs::Walking::rest_end))]
fn walk(g: Geometry, image: &[u8], t: BlockType) -> Result<(), Refusal>
    requires { check_of g (length image.now) ≡ 0 }
    ensures { answer_of result ≡ (tour g t image.now).end }
{
    let mut v = Visitor::new(g);
    while let Some((_, w)) = v.next(g, image, t)? {
        v = w;
    }
    Ok(())
}

// Whether a payload lies in its block, and is a hash, a name location and whole further locations.
#[tactic(auto, unfolding(crate::specs::Referring::is_whole))]
fn is_whole(g: Geometry, room: usize, h: ObjectHeader) -> bool
    requires { check_of g room ≡ 0 }
    ensures { result ≡ is_whole g h room }
{
    let Ok(()) = payload::reach(g, room, h) else {
        return false;
    };
    let n = h.payload(g.s);
    let location = (g.c as usize) + (g.s as usize);
    if n < 4 + location {
        return false;
    }
    (n - (4 + location)) % location == 0
}

// Whether a listed Finalized object stands at a place of a Data block, by a walk from that block on.
#[tactic(auto, unfolding(crate::specs::Referring::is_listed), using(crate::proofs::Walking::rest_none, crate::proofs::Walking::rest_broken, crate::proofs::Lists::some_none))]
fn look_for(g: Geometry, image: &[u8], at: ObjectLocation) -> bool
    requires image_value { check_of g (length image.now) ≡ 0 }
    requires image_value_2 { (tour g Data image.now).end ≡ done tt }
    ensures { result ≡ is_listed g at image.now }
{
    let mut v = Visitor {
        place: ObjectIterator::new(g, at.block),
        opened: false,
    };
    while let Ok(Some((h, w))) = v.next(g, image, BlockType::Data) {
        let here = h.location;
        if here.block != at.block {
            return false;
        }
        if here.offset == at.offset {
            return true;
        }
        v = w;
    }
    false
}

// The same, by the notes where there are any.
fn is_listed(g: Geometry, image: &[u8], words: &[u32], at: ObjectLocation) -> bool
    requires image_value { check_of g (length image.now) ≡ 0 }
    requires image_value_2 { (tour g Data image.now).end ≡ done tt }
    requires words_value { words.now ≡ noted g (places_in (data_in g image.now)) (length words.now) }
    ensures { result ≡ is_listed g at image.now }
{
    if words.len() == image.len() {
        return notes::is_noted(g, words, at);
    }
    look_for(g, image, at)
}

// Whether all of a list's locations are.
#[tactic(auto, using(crate::proofs::Places::places_none, crate::proofs::Places::places_broken, crate::proofs::Lists::every_none))]
fn are_listed(g: Geometry, image: &[u8], words: &[u32], m: MetadataObjectHeader) -> bool
    requires image_value { check_of g (length image.now) ≡ 0 }
    requires image_value_2 { (tour g Data image.now).end ≡ done tt }
    requires words_value { words.now ≡ noted g (places_in (data_in g image.now)) (length words.now) }
    ensures { result ≡ every (λ l. is_listed g l image.now) (places_of g m image.now).at }
{
    let mut rest = m;
    while let Ok(Some((at, next))) = rest.next_object_location(g, image) {
        if !is_listed(g, image, words, at) {
            return false;
        }
        rest = next;
    }
    true
}

// Whether a metadata object is whole, and all that it refers to is listed.
#[tactic(auto, unfolding(crate::specs::Referring::is_sound, crate::specs::Referring::locations_of))]
fn is_sound(g: Geometry, image: &[u8], words: &[u32], h: ObjectHeader) -> bool
    requires image_value { check_of g (length image.now) ≡ 0 }
    requires image_value_2 { (tour g Data image.now).end ≡ done tt }
    requires words_value { words.now ≡ noted g (places_in (data_in g image.now)) (length words.now) }
    ensures { result ≡ is_sound g h image.now }
{
    if !is_whole(g, image.len(), h) {
        return false;
    }
    let Ok(m) = metadata::read(g, image, h) else {
        return true;
    };
    is_listed(g, image, words, m.name) && are_listed(g, image, words, m)
}

// Whether all of them are.
#[tactic(auto, using(crate::proofs::Walking::rest_none, crate::proofs::Walking::rest_broken, crate::proofs::Lists::every_none))]
fn are_sound(g: Geometry, image: &[u8], words: &[u32]) -> bool
    requires image_value { check_of g (length image.now) ≡ 0 }
    requires image_value_2 { (tour g Data image.now).end ≡ done tt }
    requires words_value { words.now ≡ noted g (places_in (data_in g image.now)) (length words.now) }
    ensures { result ≡ every (λ h. is_sound g h image.now) (metadata_in g image.now) }
{
    let mut v = Visitor::new(g);
    while let Ok(Some((h, w))) = v.next(g, image, BlockType::Metadata) {
        if !is_sound(g, image, words, h) {
            return false;
        }
        v = w;
    }
    true
}

// Notes where the objects of Data blocks stand.
#[tactic(auto, using(crate::proofs::Walking::rest_none, crate::proofs::Walking::rest_broken))]
fn note_data(g: Geometry, image: &[u8], words: &mut [u32])
    requires { check_of g (length image.now) ≡ 0 }
    ensures { words.new ≡ noted g (places_in (data_in g image.now)) (length words.old) }
{
    words.fill(0);
    let mut v = Visitor::new(g);
    while let Ok(Some((h, w))) = v.next(g, image, BlockType::Data) {
        notes::note(g, words, h.location);
        v = w;
    }
}

// What a sweep is refused for, or nothing.
#[tactic(auto, using(medium::proofs::Refusals::passed, crate::proofs::Endings::sweepable_by, crate::proofs::Endings::sweepable_stop))]
pub(crate) fn check(g: Geometry, image: &[u8], words: &mut [u32]) -> Result<(), Refusal>
    ensures { answer_of result ≡ sweepable g image.now }
{
    medium::geometry::check(g, image.len())?;
    walk(g, image, BlockType::Metadata)?;
    walk(g, image, BlockType::Data)?;
    if g.strict == 1 {
        return Err(Refusal::Dangling);
    }
    note_data(g, image, words);
    if !are_sound(g, image, words) {
        return Err(Refusal::Dangling);
    }
    Ok(())
}
