// A line while it is made. Clauses see its bytes, and no contract says where in a buffer they stand.
ghost use Rattle.std.specs.Prelude.{◌≡◌, ℕ, ◌+◌, ◌<◌, ◌≤◌, List, [], ◌∷◌, ◌++◌, length, take};

use std::marker::Model;

// No Vec, since there is no heap under it.
#[derive(Drop)]
pub struct Line {
    bytes: [u8; 128],
    count: usize,
}

impl Model for Line {
    ghost Value = { List ℕ };

    ghost view = { λ l. take l.count l.bytes };

    ghost invariant = { λ l. l.count ≤ 128 };
}

impl Line {
    pub(crate) fn new() -> Line
        ensures { result ≡ [] }
    {
        Line {
            bytes: [0; 128],
            count: 0,
        }
    }

    pub fn as_bytes(&self) -> &[u8]
        ensures value { result.now ≡ self.now }
        ensures fits { length result.now ≤ 128 }
    {
        &self.bytes[..self.count]
    }

    pub(crate) fn push(&mut self, byte: u8)
        requires { length self.old < 128 }
        ensures { self.new ≡ self.old ++ byte ∷ [] }
    {
        self.bytes[self.count] = byte;
        self.count += 1;
    }

    // A word behind what stands there.
    pub(crate) fn put(&mut self, word: &[u8])
        requires { length self.old + length word.now ≤ 128 }
        ensures { self.new ≡ self.old ++ word.now }
    {
        let end = self.count + word.len();
        self.bytes[self.count..end].copy_from_slice(word);
        self.count = end;
    }
}
