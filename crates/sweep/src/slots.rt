// Which payloads were met, in lent words, by a key of each.
ghost use Rattle.std.specs.Prelude.{◌≡◌};
ghost use Rattle.sweep.specs.Slots.{key_of, find, take_by};

// The key has a slot already, with a block to look from; or this slot is free; or there is none.
#[derive(Clone, Copy, Debug, PartialEq, Eq)]
pub(crate) enum Slot {
    Met(u32),
    Free(usize),
    Full,
}

// A number that equal bytes share.
#[tactic(auto, unfolding(crate::specs::Slots::key_of), using(crate::proofs::MetKeys::key_more, crate::proofs::MetKeys::key_end))]
pub(crate) fn key(bytes: &[u8]) -> u32
    ensures { result ≡ key_of bytes.now }
{
    let mut n: u64 = 0;
    for b in bytes {
        n = (n * 16777619 + *b as u64) % 4294967291;
    }
    n as u32
}

#[tactic(auto, unfolding(crate::specs::Slots::find), using(crate::proofs::MetKeys::find_end))]
fn find(words: &[u32], key: u32) -> Slot
    ensures { result ≡ Rattle.sweep.specs.Slots.find words.now key }
{
    let slots = words.len() / 3;
    if slots == 0 {
        return Slot::Full;
    }
    let start = (key as usize) % (slots - slots / 16);
    for i in start..slots {
        let at = i * 3;
        if words[at] == 0 {
            return Slot::Free(i);
        }
        if words[at + 1] == key {
            return Slot::Met(words[at + 2]);
        }
    }
    Slot::Full
}

// The slot of a key; a free one is taken, with this block to look from.
pub(crate) fn meet(words: &mut [u32], key: u32, block: u32) -> Slot
    ensures value { result ≡ Rattle.sweep.specs.Slots.find words.old key }
    ensures words_after { words.new ≡ take_by (Rattle.sweep.specs.Slots.find words.old key) key block words.old }
{
    let s = find(words, key);
    let Slot::Free(i) = s else {
        return s;
    };
    let at = i * 3;
    words[at] = 1;
    words[at + 1] = key;
    words[at + 2] = block;
    s
}
