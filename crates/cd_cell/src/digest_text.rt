ghost use Rattle.std.specs.Prelude.{◌≡◌, ◌+◌, ◌≤◌, [], ◌++◌, length};

use crate::put::put;
use std::marker::Model;

// Two descriptors, the data, and the depths and hashes of four children.
const ROOM: usize = 2 + 128 + 4 * 2 + 4 * 32;

/// The bytes to be hashed, put together in a fixed buffer: at most 266. Contracts see the list of the bytes.
#[derive(Drop)]
pub struct DigestText {
    bytes: [u8; ROOM],
    len: usize,
}

impl Model for DigestText {
    ghost use Rattle.std.specs.Prelude.{List, ℕ, take, ◌≤◌};

    ghost Value = { List ℕ };

    ghost view = { λ t. take t.len t.bytes };

    ghost invariant = { λ t. t.len ≤ 266 };
}

impl DigestText {
    /// No bytes.
    pub fn new() -> DigestText
        ensures { result ≡ [] }
    {
        DigestText {
            bytes: [0; ROOM],
            len: 0,
        }
    }

    /// Puts a piece behind the others.
    pub fn extend(&mut self, piece: &[u8])
        requires { length self.old + length piece.now ≤ 266 }
        ensures { self.new ≡ self.old ++ piece.now }
    {
        put(&mut self.bytes, self.len, piece);
        self.len += piece.len();
    }

    /// The bytes.
    pub fn bytes(&self) -> &[u8]
        ensures { result.now ≡ self.now }
    {
        &self.bytes[..self.len]
    }
}
