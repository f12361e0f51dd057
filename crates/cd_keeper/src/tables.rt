//! The two tables of a keeper in memory, which change by whole batches.
ghost use Rattle.std.specs.Prelude.{◌≡◌, IsTrue, IfSome, IfOk, OnOk, OnErr};
ghost use Rattle.std.specs.Option.{option_map};
ghost use Rattle.std.specs.FinMap as finite;
ghost use Rattle.cd_keeper.specs.Contents.{next_entry, is_above, changed, no_contents};
ghost use Rattle.cd_keeper.specs.Memories.{raw_contents, after_all, with_cell, with_desc};
ghost use Rattle.cd_keeper.specs.Shown.{entry_of, hash_bytes, desc_bytes};

use crate::batch::Batch;
use crate::table::Table;
use cd_base::{Hash256, Memory};
use std::alloc::Global;
use std::marker::Model;

/// Records of cells under their hashes, and descriptions under their keys.
#[derive(Drop)]
pub struct Tables {
    cells: Table<Hash256>,
    descs: Table<[u8; 80]>,
}

impl Model for Tables {
    ghost use Rattle.cd_keeper.specs.Contents.{Contents, coded_contents};

    ghost Value = { Contents };

    ghost coded = { coded_contents };

    ghost view = { λ tables. record { cells = tables.cells; descs = tables.descs } };
}

impl Tables {
    /// Empty tables.
    pub fn new(alloc: Global) -> Tables
        ensures { result ≡ no_contents }
    {
        Tables {
            cells: Table::new(alloc),
            descs: Table::new(alloc),
        }
    }

    /// Tables of copies of these bytes. Where a key stands twice, its last value stays.
    pub fn of_raw(
        alloc: Global,
        cells: &[(Hash256, Vec<u8>)],
        descs: &[([u8; 80], Vec<u8>)],
    ) -> Result<Tables, Memory>
        ensures { IfOk result (λ tables. tables ≡ raw_contents cells.now descs.now) }
    {
        let mut tables = Tables::new(alloc);
        let _ = tables.cells.put_all(cells)?;
        let _ = tables.descs.put_all(descs)?;
        Ok(tables)
    }

    /// A copy of the record under a hash.
    pub fn get_cell(&self, key: &Hash256) -> Result<Option<Vec<u8>>, Memory>
        ensures { IfOk result (λ found. option_map (λ v. v.items) found
            ≡ finite.get self.now.cells key.now.0) }
    {
        self.cells.get(key)
    }

    /// The least hash above a bound, with a copy of its record.
    pub fn next_cell(&self, after: Option<Hash256>) -> Result<Option<(Hash256, Vec<u8>)>, Memory>
        ensures value { IfOk result (λ found. option_map (entry_of hash_bytes) found
            ≡ next_entry self.now.cells (option_map hash_bytes after)) }
        ensures above { IfOk result (λ found. IfSome found
            (λ entry. IsTrue (is_above (option_map hash_bytes after) entry.0.0))) }
    {
        self.cells.next(after)
    }

    /// A copy of the description under a key.
    pub fn get_desc(&self, key: &[u8; 80]) -> Result<Option<Vec<u8>>, Memory>
        ensures { IfOk result (λ found. option_map (λ v. v.items) found
            ≡ finite.get self.now.descs key.now) }
    {
        self.descs.get(key)
    }

    /// The least key of a description above a bound, with a copy of it.
    pub fn next_desc(&self, after: Option<[u8; 80]>) -> Result<Option<([u8; 80], Vec<u8>)>, Memory>
        ensures value { IfOk result (λ found. option_map (entry_of desc_bytes) found
            ≡ next_entry self.now.descs after) }
        ensures above { IfOk result (λ found. IfSome found
            (λ entry. IsTrue (is_above after entry.0))) }
    {
        self.descs.next(after)
    }

    /// Makes a whole batch, or changes nothing. What takes memory comes first.
    pub fn apply(&mut self, batch: &Batch) -> Result<(), Memory>
        ensures ok { OnOk result (self.new ≡ changed batch.now self.old) }
        ensures err { OnErr result (self.new ≡ self.old) }
    {
        let puts = batch.put_cells();
        let replaced = self.cells.put_all(puts)?;
        if let Err(memory) = self.descs.put_all(batch.put_descs()) {
            self.cells.take_back(puts, replaced);
            return Err(memory);
        }
        self.cells.drop_all(batch.drop_cells());
        self.descs.drop_all(batch.drop_descs());
        Ok(())
    }

    /// Makes some batches in turn. Where memory runs out, the first ones stay made.
    pub fn apply_all(&mut self, batches: &[Batch]) -> Result<(), Memory>
        ensures { OnOk result (self.new ≡ after_all self.old batches.now) }
    {
        for batch in batches {
            self.apply(batch)?;
        }
        Ok(())
    }

    /// Puts a record under a hash, in place of one that is there.
    pub fn put_cell(&mut self, key: Hash256, value: Vec<u8>) -> Result<(), Memory>
        ensures ok { OnOk result (self.new ≡ with_cell self.old key.0 value.items) }
        ensures err { OnErr result (self.new ≡ self.old) }
    {
        let _ = self.cells.put(key, value)?;
        Ok(())
    }

    /// Puts a description under a key, in place of one that is there.
    pub fn put_desc(&mut self, key: [u8; 80], value: Vec<u8>) -> Result<(), Memory>
        ensures ok { OnOk result (self.new ≡ with_desc self.old key value.items) }
        ensures err { OnErr result (self.new ≡ self.old) }
    {
        let _ = self.descs.put(key, value)?;
        Ok(())
    }
}
