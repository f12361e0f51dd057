ghost use Rattle.std.specs.Prelude.{◌≡◌, ◌∷◌, ◌++◌, [], map, IfOk, OnOk, OnErr};
ghost use Rattle.cd_keeper.specs.Shown.{entries_of, hash_bytes, desc_bytes};
ghost use Rattle.std.specs.List.{list_any};
ghost use Rattle.cd_keeper.specs.NoKeyTwice.{HasNoKeyTwice, IsNew, same_key, cell_keys, desc_keys, change_of_lists};

use crate::table::copy_of;
use cd_base::{Hash256, Memory};
use std::alloc::Global;
use std::marker::Model;

/// Puts and drops that a keeper takes as one. No key stands twice among the cells, none among the descriptions.
#[derive(Drop)]
pub struct Batch {
    put_cells: Vec<(Hash256, Vec<u8>)>,
    drop_cells: Vec<Hash256>,
    put_descs: Vec<([u8; 80], Vec<u8>)>,
    drop_descs: Vec<[u8; 80]>,
}

impl Model for Batch {
    ghost use Rattle.cd_keeper.specs.Contents.{Change};
    ghost use Rattle.cd_keeper.specs.NoKeyTwice.{HasNoKeyTwice, change_of_lists};

    ghost Value = { Change };

    ghost view = { λ b. change_of_lists b.put_cells.items b.drop_cells.items
        b.put_descs.items b.drop_descs.items };

    ghost invariant = { λ b. HasNoKeyTwice (change_of_lists b.put_cells.items b.drop_cells.items
        b.put_descs.items b.drop_descs.items) };
}

impl Batch {
    /// A batch without puts and drops.
    pub fn new(alloc: Global) -> Batch
        ensures { result ≡ record {
          put_cells = [];
          drop_cells = [];
          put_descs = [];
          drop_descs = [];
        } }
    {
        Batch {
            put_cells: Vec::new(alloc),
            drop_cells: Vec::new(alloc),
            put_descs: Vec::new(alloc),
            drop_descs: Vec::new(alloc),
        }
    }

    /// A batch of these puts and drops. Where it isn't known that no key stands twice, add them one by one, each
    /// after `names_cell` or `names_desc`.
    pub fn from_parts(
        put_cells: Vec<(Hash256, Vec<u8>)>,
        drop_cells: Vec<Hash256>,
        put_descs: Vec<([u8; 80], Vec<u8>)>,
        drop_descs: Vec<[u8; 80]>,
    ) -> Batch
        requires { HasNoKeyTwice (change_of_lists put_cells.items drop_cells.items
            put_descs.items drop_descs.items) }
        ensures { result ≡ change_of_lists put_cells.items drop_cells.items
            put_descs.items drop_descs.items }
    {
        Batch {
            put_cells,
            drop_cells,
            put_descs,
            drop_descs,
        }
    }

    /// Whether the batch puts or drops a record under this hash: the test of what `put_cell` and `drop_cell` ask.
    pub fn names_cell(&self, key: &Hash256) -> bool
        ensures { result ≡ list_any (same_key key.now.0) (cell_keys self.now) }
    {
        if drops_cell(&self.drop_cells, key) {
            return true;
        }
        puts_cell(&self.put_cells, key)
    }

    /// Whether the batch puts or drops a description under this key: the test of what `put_desc` and `drop_desc` ask.
    pub fn names_desc(&self, key: &[u8; 80]) -> bool
        ensures { result ≡ list_any (same_key key.now) (desc_keys self.now) }
    {
        if drops_desc(&self.drop_descs, key) {
            return true;
        }
        puts_desc(&self.put_descs, key)
    }

    /// Adds the put of a record under a hash that the batch doesn't name yet.
    pub fn put_cell(&mut self, key: Hash256, value: Vec<u8>) -> Result<(), Memory>
        requires { IsNew key.0 (cell_keys self.old) }
        ensures ok { OnOk result (self.new
            ≡ record self.old { put_cells = self.old.put_cells ++ (key.0, value.items) ∷ [] }) }
        ensures err { OnErr result (self.new ≡ self.old) }
    {
        Ok(self.put_cells.push((key, value))?)
    }

    /// Adds the drop of a record under a hash that the batch doesn't name yet.
    pub fn drop_cell(&mut self, key: Hash256) -> Result<(), Memory>
        requires { IsNew key.0 (cell_keys self.old) }
        ensures ok { OnOk result (self.new
            ≡ record self.old { drop_cells = self.old.drop_cells ++ key.0 ∷ [] }) }
        ensures err { OnErr result (self.new ≡ self.old) }
    {
        Ok(self.drop_cells.push(key)?)
    }

    /// Adds the put of a description under a key that the batch doesn't name yet.
    pub fn put_desc(&mut self, key: [u8; 80], value: Vec<u8>) -> Result<(), Memory>
        requires { IsNew key (desc_keys self.old) }
        ensures ok { OnOk result (self.new
            ≡ record self.old { put_descs = self.old.put_descs ++ (key, value.items) ∷ [] }) }
        ensures err { OnErr result (self.new ≡ self.old) }
    {
        Ok(self.put_descs.push((key, value))?)
    }

    /// Adds the drop of a description under a key that the batch doesn't name yet.
    pub fn drop_desc(&mut self, key: [u8; 80]) -> Result<(), Memory>
        requires { IsNew key (desc_keys self.old) }
        ensures ok { OnOk result (self.new
            ≡ record self.old { drop_descs = self.old.drop_descs ++ key ∷ [] }) }
        ensures err { OnErr result (self.new ≡ self.old) }
    {
        Ok(self.drop_descs.push(key)?)
    }

    /// The records to put, in the order in which they were added.
    pub fn put_cells(&self) -> &[(Hash256, Vec<u8>)]
        ensures value { entries_of hash_bytes result.now ≡ self.now.put_cells }
        ensures once { HasNoKeyTwice self.now }
    {
        &self.put_cells
    }

    /// The hashes of the records to drop.
    pub fn drop_cells(&self) -> &[Hash256]
        ensures { map hash_bytes result.now ≡ self.now.drop_cells }
    {
        &self.drop_cells
    }

    /// The descriptions to put, in the order in which they were added.
    pub fn put_descs(&self) -> &[([u8; 80], Vec<u8>)]
        ensures { entries_of desc_bytes result.now ≡ self.now.put_descs }
    {
        &self.put_descs
    }

    /// The keys of the descriptions to drop.
    pub fn drop_descs(&self) -> &[[u8; 80]]
        ensures { map desc_bytes result.now ≡ self.now.drop_descs }
    {
        &self.drop_descs
    }

    /// A copy of the batch.
    pub(crate) fn copy(&self, alloc: Global) -> Result<Batch, Memory>
        ensures { IfOk result (λ copy. copy ≡ self.now) }
    {
        Ok(Batch {
            put_cells: copy_of(alloc, &self.put_cells)?,
            drop_cells: Vec::from_slice(alloc, &self.drop_cells)?,
            put_descs: copy_of(alloc, &self.put_descs)?,
            drop_descs: Vec::from_slice(alloc, &self.drop_descs)?,
        })
    }
}

fn drops_cell(drops: &[Hash256], key: &Hash256) -> bool
    ensures { result ≡ list_any (λ named. same_key key.now.0 (hash_bytes named)) drops.now }
{
    drops.iter().any(|named| key.0.cmp(&named.0).is_eq())
}

fn puts_cell(puts: &[(Hash256, Vec<u8>)], key: &Hash256) -> bool
    ensures { result ≡ list_any (λ put. same_key key.now.0 (hash_bytes put.0)) puts.now }
{
    puts.iter().any(|put| key.0.cmp(&put.0.0).is_eq())
}

fn drops_desc(drops: &[[u8; 80]], key: &[u8; 80]) -> bool
    ensures { result ≡ list_any (λ named. same_key key.now (desc_bytes named)) drops.now }
{
    drops.iter().any(|named| key.cmp(named).is_eq())
}

fn puts_desc(puts: &[([u8; 80], Vec<u8>)], key: &[u8; 80]) -> bool
    ensures { result ≡ list_any (λ put. same_key key.now (desc_bytes put.0)) puts.now }
{
    puts.iter().any(|put| key.cmp(&put.0).is_eq())
}
