ghost use Rattle.std.specs.Prelude.{◌≡◌, ◌<◌, length, [], slice_index_or, IfOk, OnErr};
ghost use Rattle.cd_cell.specs.Infos.{no_hash};
ghost use Rattle.cd_cell.specs.Equality.{same_hash};
ghost use Rattle.cd_update.specs.EachOnce.{with_new};
ghost use Rattle.cd_cell.specs.Indexes.{IsIndex};

use cd_base::{Hash256, Memory};
use cd_cell::Index;
use std::alloc::Global;

/// Hashes in the order in which they came, each once.
#[derive(Drop)]
pub(crate) struct Hashes {
    pub all: Vec<Hash256>,
    pub index: Index,
    pub ghost indexed: { IsIndex index all.items },
}

impl Hashes {
    /// No hash.
    pub fn new(alloc: Global) -> Hashes
        ensures { result.all.items ≡ [] }
    {
        Hashes {
            all: Vec::new(alloc),
            index: Index::new(alloc),
        }
    }

    /// One hash more, where it isn't there: gives its place.
    pub fn add(&mut self, hash: Hash256) -> Result<usize, Memory>
        ensures all { IfOk result (λ _. self.new.all.items ≡ with_new same_hash self.old.all.items hash) }
        ensures below { IfOk result (λ place. place < length self.new.all.items) }
        ensures place { IfOk result (λ place. slice_index_or self.new.all.items place no_hash ≡ hash) }
        ensures kept { OnErr result (self.new.all.items ≡ self.old.all.items) }
    {
        if let Some(place) = self.index.place(&hash) {
            return Ok(place);
        }
        let place = self.all.len();
        self.all.push(hash)?;
        match self.index.push(hash, place) {
            Ok(()) => Ok(place),
            Err(fault) => {
                self.all.pop();
                Err(fault)
            }
        }
    }
}
