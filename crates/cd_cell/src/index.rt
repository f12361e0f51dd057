ghost use Rattle.std.specs.Prelude.{◌≡◌, ◌<◌, ℕ, false, List, ◌++◌, ◌∷◌, [], length, slice_index_or, MatchOption, OnOk, OnErr};
ghost use Rattle.std.specs.List.{list_any};
ghost use Rattle.cd_base.specs.declared.hash.Hash256.{Hash256};
ghost use Rattle.cd_cell.specs.Infos.{no_hash};
ghost use Rattle.cd_cell.specs.Equality.{same_hash};
ghost use Rattle.cd_cell.specs.Indexes.{IsIndex};

use cd_base::{Hash256, Memory};
use std::alloc::Global;
use std::collections::BTreeMap;

/// Where hashes stand in a list.
#[derive(Drop)]
pub struct Index {
    pub(crate) places: BTreeMap<Hash256, usize>,
}

impl Index {
    /// The index of no hashes.
    pub fn new(alloc: Global) -> Index
        ensures { IsIndex result [] }
    {
        Index {
            places: BTreeMap::new(alloc),
        }
    }

    /// A place in which the hash stands.
    pub fn place(&self, hash: &Hash256) -> Option<usize>
        ensures { (keys : List Hash256) → IsIndex self.now keys → MatchOption result
            (list_any (same_hash hash.now) keys ≡ false)
            (λ place. (place < length keys) × (slice_index_or keys place no_hash ≡ hash.now)) }
    {
        self.places.get(hash).copied()
    }

    /// One hash more, behind the others: its place is their number.
    pub fn push(&mut self, hash: Hash256, place: usize) -> Result<(), Memory>
        ensures pushed { OnOk result ((keys : List Hash256) → IsIndex self.old keys
            → place ≡ length keys → IsIndex self.new (keys ++ hash ∷ [])) }
        ensures kept { OnErr result ((keys : List Hash256) → IsIndex self.old keys → IsIndex self.new keys) }
    {
        match self.places.insert(hash, place) {
            Ok(_) => Ok(()),
            Err(_) => Err(Memory),
        }
    }
}
