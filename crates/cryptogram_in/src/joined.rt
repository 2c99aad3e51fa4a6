//! Bytes that are appended piece by piece.

ghost use Rattle.std.specs.Prelude.{◌≡◌, ◌+◌, ◌≤◌, [], ◌++◌, length};

use std::marker::Model;

/// A buffer to which pieces are appended, at most 65 bytes in all.
///
/// A contract sees the list of the bytes so far.
#[derive(Drop)]
pub struct Joined {
    bytes: [u8; 65],
    count: usize,
}

impl Model for Joined {
    ghost use Rattle.std.specs.Prelude.{ℕ, ◌≤◌, List, take};

    ghost Value = { List ℕ };

    ghost view = { λ joined. take joined.count joined.bytes };

    ghost invariant = { λ joined. joined.count ≤ 65 };
}

impl Joined {
    pub fn new() -> Joined
        ensures { result ≡ [] }
    {
        Joined {
            bytes: [0; 65],
            count: 0,
        }
    }

    /// Appends a piece.
    pub fn add(&mut self, piece: &[u8])
        requires { length self.old + length piece.now ≤ 65 }
        ensures joined { self.new ≡ self.old ++ piece.now }
        ensures len { length self.new ≡ length self.old + length piece.now }
    {
        let end = self.count + piece.len();
        self.bytes[self.count..end].copy_from_slice(piece);
        self.count = end;
    }

    /// All bytes, of which there must be 65.
    pub fn whole(self) -> [u8; 65]
        requires { length self ≡ 65 }
        ensures { result ≡ self }
    {
        self.bytes
    }
}
