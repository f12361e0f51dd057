ghost use Rattle.std.specs.Prelude.{◌≡◌, ◌<◌, ◌↔◌, length, take, drop, IsNone, IfSome, IfNone, OnSome};

use std::marker::Model;

/// Bytes that are taken from their front. Contracts see it as the bytes left.
/// It is kept since the store's interface names it; the crates of the store read by `part_at` and its like.
#[derive(Drop)]
pub struct ByteReader<'a> {
    rest: &'a [u8],
}

impl<'a> Model for ByteReader<'a> {
    ghost use Rattle.std.specs.Prelude.{ℕ, List};

    ghost Value = { List ℕ };

    ghost view = { λ reader. reader.rest.now };
}

impl<'a> ByteReader<'a> {
    /// A reader of all these bytes.
    pub fn new(bytes: &'a [u8]) -> ByteReader<'a>
        ensures { result ≡ bytes.now }
    {
        ByteReader { rest: bytes }
    }

    /// The next `n` bytes. Where fewer are left, it answers `None` and takes none.
    pub fn take(&mut self, n: usize) -> Option<&'a [u8]>
        ensures none { IsNone result ↔ (length self.old < n) }
        ensures piece { IfSome result (λ piece. piece.now ≡ take n self.old) }
        ensures rest { OnSome result (self.new ≡ drop n self.old) }
        ensures kept { IfNone result (self.new ≡ self.old) }
    {
        if self.rest.len() < n {
            return None;
        }
        let (piece, rest) = self.rest.split_at(n);
        self.rest = rest;
        Some(piece)
    }

    /// How many bytes are left.
    pub fn left(&self) -> usize
        ensures { result ≡ length self.now }
    {
        self.rest.len()
    }
}
