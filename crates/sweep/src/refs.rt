// What a metadata object refers to: the place of its name, and those of its data objects.
ghost use Rattle.std.specs.Prelude.{◌≡◌, length};
ghost use Rattle.medium.specs.Geometry.{check_of};
ghost use Rattle.storage.specs.File.{places_of};
ghost use Rattle.sweep.specs.Referring.{is_among, locations_of};
ghost use Rattle.sweep.specs.Twins.{is_referred};
ghost use Rattle.sweep.specs.Notes.{Inside, note_all, noted, referred_in};

use crate::notes;
use blocks::header::BlockType;
use medium::geometry::Geometry;
use objects::header::ObjectHeader;
use objects::location::ObjectLocation;
use objects::metadata;
use objects::metadata::MetadataObjectHeader;
use storage::visit::Visitor;

// Whether a place is in the list behind the name.
#[tactic(auto, using(crate::proofs::Places::places_none, crate::proofs::Places::places_broken, crate::proofs::Lists::some_none))]
fn lists(g: Geometry, image: &[u8], m: MetadataObjectHeader, at: ObjectLocation) -> bool
    requires { check_of g (length image.now) ≡ 0 }
    ensures { result ≡ is_among at (places_of g m image.now).at }
{
    let mut rest = m;
    while let Ok(Some((l, next))) = rest.next_object_location(g, image) {
        if at == l {
            return true;
        }
        rest = next;
    }
    false
}

#[tactic(auto, unfolding(crate::specs::Referring::locations_of))]
fn refers(g: Geometry, image: &[u8], h: ObjectHeader, at: ObjectLocation) -> bool
    requires { check_of g (length image.now) ≡ 0 }
    ensures { result ≡ is_among at (locations_of g h image.now) }
{
    let Ok(m) = metadata::read(g, image, h) else {
        return false;
    };
    at == m.name || lists(g, image, m, at)
}

// Whether a metadata object refers to a place, by a walk through all of them.
#[tactic(auto, unfolding(crate::specs::Twins::is_referred), using(crate::proofs::Walking::rest_none, crate::proofs::Walking::rest_broken, crate::proofs::Lists::some_none))]
fn look_for(g: Geometry, image: &[u8], at: ObjectLocation) -> bool
    requires { check_of g (length image.now) ≡ 0 }
    ensures { result ≡ is_referred g image.now at }
{
    let mut v = Visitor::new(g);
    while let Ok(Some((h, w))) = v.next(g, image, BlockType::Metadata) {
        if refers(g, image, h, at) {
            return true;
        }
        v = w;
    }
    false
}

// The same, by the notes where there are any; it is asked of places in their blocks.
pub(crate) fn is_referred(g: Geometry, image: &[u8], words: &[u32], at: ObjectLocation) -> bool
    requires image_value { check_of g (length image.now) ≡ 0 }
    requires inside { Inside g (length image.now) at }
    requires words_value { words.now ≡ noted g (referred_in g image.now) (length words.now) }
    ensures { result ≡ is_referred g image.now at }
{
    if words.len() == image.len() {
        return notes::is_noted(g, words, at);
    }
    look_for(g, image, at)
}

// Notes the places of a list.
#[tactic(auto, using(crate::proofs::Places::places_none, crate::proofs::Places::places_broken))]
fn note_places(g: Geometry, image: &[u8], words: &mut [u32], m: MetadataObjectHeader)
    requires { check_of g (length image.now) ≡ 0 }
    ensures { words.new ≡ note_all g (places_of g m image.now).at words.old }
{
    let mut rest = m;
    while let Ok(Some((l, next))) = rest.next_object_location(g, image) {
        notes::note(g, words, l);
        rest = next;
    }
}

// Notes what a metadata object refers to.
#[tactic(auto, unfolding(crate::specs::Referring::locations_of))]
fn note_object(g: Geometry, image: &[u8], words: &mut [u32], h: ObjectHeader)
    requires { check_of g (length image.now) ≡ 0 }
    ensures { words.new ≡ note_all g (locations_of g h image.now) words.old }
{
    let Ok(m) = metadata::read(g, image, h) else {
        return;
    };
    notes::note(g, words, m.name);
    note_places(g, image, words, m);
}

// Notes what all metadata objects refer to.
#[tactic(auto, using(crate::proofs::Walking::rest_none, crate::proofs::Walking::rest_broken))]
pub(crate) fn note_referred(g: Geometry, image: &[u8], words: &mut [u32])
    requires { check_of g (length image.now) ≡ 0 }
    ensures { words.new ≡ noted g (referred_in g image.now) (length words.old) }
{
    words.fill(0);
    let mut v = Visitor::new(g);
    while let Ok(Some((h, w))) = v.next(g, image, BlockType::Metadata) {
        note_object(g, image, words, h);
        v = w;
    }
}
