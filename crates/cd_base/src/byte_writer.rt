ghost use Rattle.std.specs.Prelude.{◌≡◌, ◌++◌, ◌^◌, ◌<◌, [], replicate, OnOk, OnErr};
ghost use Rattle.cd_base.specs.Numbers.{big};

use crate::answers::Memory;
use std::alloc::Global;
use std::marker::Model;

/// Bytes that are put one after another. Contracts see it as the bytes so far.
/// It is kept since the store's interface names it, for texts whose length isn't known beforehand.
#[derive(Drop)]
pub struct ByteWriter {
    bytes: Vec<u8>,
}

impl Model for ByteWriter {
    ghost use Rattle.std.specs.Prelude.{ℕ, List};

    ghost Value = { List ℕ };

    ghost view = { λ writer. writer.bytes.items };
}

impl ByteWriter {
    /// A writer that has no byte yet.
    pub fn new(alloc: Global) -> ByteWriter
        ensures { result ≡ [] }
    {
        ByteWriter {
            bytes: Vec::new(alloc),
        }
    }

    /// Puts these bytes at the end. At want of memory nothing changes.
    pub fn put(&mut self, piece: &[u8]) -> Result<(), Memory>
        ensures ok { OnOk result (self.new ≡ self.old ++ piece.now) }
        ensures err { OnErr result (self.new ≡ self.old) }
    {
        if self.bytes.extend_from_slice(piece).is_err() {
            return Err(Memory);
        }
        Ok(())
    }

    /// Puts a number in so many bytes, the highest first. At want of memory nothing changes.
    pub fn put_be(&mut self, value: u64, bytes: u8) -> Result<(), Memory>
        requires { value < 256 ^ bytes }
        ensures ok { OnOk result (self.new ≡ self.old ++ big bytes value) }
        ensures err { OnErr result (self.new ≡ self.old) }
    {
        let number = value.to_be_bytes();
        let width = usize::from(bytes);
        let low = width.min(number.len());
        let start = self.bytes.len();
        self.put_zeros(width - low)?;
        match self.put(&number[number.len() - low..]) {
            Ok(()) => Ok(()),
            Err(memory) => {
                self.bytes.truncate(start);
                Err(memory)
            }
        }
    }

    fn put_zeros(&mut self, count: usize) -> Result<(), Memory>
        requires { count < 256 }
        ensures ok { OnOk result (self.new ≡ self.old ++ replicate count 0) }
        ensures err { OnErr result (self.new ≡ self.old) }
    {
        let end = self.bytes.len() + count;
        if self.bytes.resize(end, 0).is_err() {
            return Err(Memory);
        }
        Ok(())
    }

    /// The bytes so far.
    pub fn so_far(&self) -> &[u8]
        ensures { result.now ≡ self.now }
    {
        &self.bytes
    }

    /// All the bytes.
    pub fn finish(self) -> Vec<u8>
        ensures { result.items ≡ self }
    {
        self.bytes
    }
}
