ghost use Rattle.std.specs.Prelude.{◌≡◌, ◌+◌, ◌-◌, ◌^◌, ◌<◌, ◌↔◌, [], ◌∷◌, ◌++◌, length, Contains, IsTrue, IsNone, IfSome, IfOk, OnOk, OnErr, IsErr, IsErrOf, slice_get};
ghost use Rattle.std.specs.Option.{option_map};
ghost use Rattle.std.specs.FinMap as finite;
ghost use Rattle.cd_base.specs.Counts.{one_more};
ghost use Rattle.cd_keeper.specs.Contents.{no_contents, changed, next_entry, is_above};
ghost use Rattle.cd_keeper.specs.Shown.{entry_of, hash_bytes, desc_bytes};
ghost use Rattle.cd_keeper.specs.Keeping.{IsApplied};
ghost use Rattle.cd_keeper.specs.Memories.{held_by, steady_of, faults_after, IsRead, with_cell, with_desc};

use crate::batch::Batch;
use crate::fault::KeepFault;
use crate::keeper::Keeper;
use crate::steady::SteadyKeeper;
use crate::tables::Tables;
use cd_base::{Failed, Hash256, Memory, one_more};
use std::alloc::Global;
use std::marker::Model;

/// A keeper in memory of which chosen calls fail, as a test wants it. It keeps its batches, and tells what it held after each.
#[derive(Drop)]
pub struct MemoryKeeper {
    tables: Tables,
    raw_cells: Vec<(Hash256, Vec<u8>)>,
    raw_descs: Vec<([u8; 80], Vec<u8>)>,
    applied: Vec<Batch>,
    fails: Vec<u64>,
    calls: u64,
    faults: u64,
    reads: u64,
    alloc: Global,
}

impl Model for MemoryKeeper {
    ghost use Rattle.std.specs.Prelude.{◌≡◌};
    ghost use Rattle.cd_keeper.specs.Memories.{MemoryView, coded_memory, raw_contents, trail_of, after_all};

    ghost Value = { MemoryView };

    ghost coded = { coded_memory };

    ghost view = { λ k. record {
      start = raw_contents k.raw_cells.items k.raw_descs.items;
      trail = trail_of (raw_contents k.raw_cells.items k.raw_descs.items) k.applied.items;
      fails = k.fails.items;
      calls = k.calls;
      faults = k.faults;
      reads = k.reads;
    } };

    ghost invariant = { λ k. k.tables
        ≡ after_all (raw_contents k.raw_cells.items k.raw_descs.items) k.applied.items };
}

impl MemoryKeeper {
    /// A keeper that holds nothing. `fails` has the numbers of the calls that fail, counted from 0 over all five calls.
    pub fn new(alloc: Global, fails: Vec<u64>) -> MemoryKeeper
        ensures { result ≡ record {
          start = no_contents;
          trail = [];
          fails = fails.items;
          calls = 0;
          faults = 0;
          reads = 0;
        } }
    {
        MemoryKeeper {
            tables: Tables::new(alloc),
            raw_cells: Vec::new(alloc),
            raw_descs: Vec::new(alloc),
            applied: Vec::new(alloc),
            fails,
            calls: 0,
            faults: 0,
            reads: 0,
            alloc,
        }
    }

    /// A keeper with what this one held after `k` batches, or none where fewer were applied.
    pub fn at(&self, k: u64) -> Result<Option<SteadyKeeper>, Memory>
        ensures value { IfOk result (λ found. found
            ≡ option_map steady_of (slice_get (self.now.start ∷ self.now.trail) k)) }
        ensures none { IfOk result (λ found. IsNone found ↔ (length self.now.trail < k)) }
    {
        if self.batches() < k {
            return Ok(None);
        }
        let mut tables = Tables::of_raw(self.alloc, &self.raw_cells, &self.raw_descs)?;
        tables.apply_all(&self.applied[..k as usize])?;
        Ok(Some(SteadyKeeper::of_tables(tables)))
    }

    /// How many batches were applied.
    pub fn batches(&self) -> u64
        ensures { result ≡ length self.now.trail }
    {
        self.applied.len() as u64
    }

    /// How many calls failed.
    pub fn faults(&self) -> u64
        ensures { result ≡ self.now.faults }
    {
        self.faults
    }

    /// How many reading calls there were.
    pub fn reads(&self) -> u64
        ensures { result ≡ self.now.reads }
    {
        self.reads
    }

    /// Writes any bytes under the hash of a cell, before the first batch. They are there in each `at(k)`. This is no batch; it is meant for tests.
    pub fn put_raw_cell(&mut self, key: Hash256, value: Vec<u8>) -> Result<(), Memory>
        requires { self.old.trail ≡ [] }
        ensures ok { OnOk result (self.new
            ≡ record self.old { start = with_cell self.old.start key.0 value.items }) }
        ensures err { OnErr result (self.new ≡ self.old) }
    {
        let copy = Vec::from_slice(self.alloc, value.as_slice())?;
        self.raw_cells.reserve(1)?;
        self.tables.put_cell(key, copy)?;
        // There is room for it.
        let _ = self.raw_cells.push((key, value));
        Ok(())
    }

    /// Writes any bytes under the key of a description, before the first batch. They are there in each `at(k)`. This is no batch; it is meant for tests.
    pub fn put_raw_desc(&mut self, key: [u8; 80], value: Vec<u8>) -> Result<(), Memory>
        requires { self.old.trail ≡ [] }
        ensures ok { OnOk result (self.new
            ≡ record self.old { start = with_desc self.old.start key value.items }) }
        ensures err { OnErr result (self.new ≡ self.old) }
    {
        let copy = Vec::from_slice(self.alloc, value.as_slice())?;
        self.raw_descs.reserve(1)?;
        self.tables.put_desc(key, copy)?;
        // There is room for it.
        let _ = self.raw_descs.push((key, value));
        Ok(())
    }

    /// The tables as they are now.
    fn tables(&self) -> &Tables
        ensures { result.now ≡ held_by self.now }
    {
        &self.tables
    }

    /// Makes a batch and keeps a copy of it, or changes nothing.
    fn add(&mut self, batch: &Batch) -> Result<(), Memory>
        ensures ok { OnOk result (self.new
            ≡ record self.old { trail = self.old.trail ++ changed batch.now (held_by self.old) ∷ [] }) }
        ensures err { OnErr result (self.new ≡ self.old) }
        ensures small { OnOk result (length self.new.trail < 2 ^ 63) }
    {
        let copy = batch.copy(self.alloc)?;
        self.applied.reserve(1)?;
        self.tables.apply(batch)?;
        // There is room for it.
        let _ = self.applied.push(copy);
        Ok(())
    }

    /// Counts a call, which fails where its number is among those that fail.
    fn begin_call(&mut self) -> Result<(), Failed>
        ensures fails { IsErr result ↔ Contains self.old.fails self.old.calls }
        ensures ok { OnOk result (self.new ≡ record self.old { calls = one_more self.old.calls }) }
        ensures failed { OnErr result (self.new
            ≡ record self.old {
              calls = one_more self.old.calls;
              faults = one_more self.old.faults;
            }) }
    {
        let fails = self.fails.contains(&self.calls);
        self.calls = one_more(self.calls);
        if fails {
            self.faults = one_more(self.faults);
            return Err(Failed);
        }
        Ok(())
    }

    /// Counts a reading call.
    fn begin_read(&mut self) -> Result<(), Failed>
        ensures fails { IsErr result ↔ Contains self.old.fails self.old.calls }
        ensures ok { OnOk result (self.new
            ≡ record self.old {
              calls = one_more self.old.calls;
              reads = one_more self.old.reads;
            }) }
        ensures failed { OnErr result (self.new
            ≡ record self.old {
              calls = one_more self.old.calls;
              faults = one_more self.old.faults;
              reads = one_more self.old.reads;
            }) }
    {
        self.reads = one_more(self.reads);
        self.begin_call()
    }
}

impl Keeper for MemoryKeeper {
    ghost use Rattle.std.specs.Prelude.{Some, length};
    ghost use Rattle.cd_keeper.specs.Memories.{held_by};

    ghost held = { λ keeper. Some (held_by keeper) };

    ghost trail = { λ keeper. Some keeper.trail };

    ghost batches = { λ keeper. length keeper.trail };

    ghost faults = { λ keeper. keeper.faults };

    ghost reads = { λ keeper. keeper.reads };

    fn get_cell(&mut self, key: &Hash256) -> Result<Option<Vec<u8>>, KeepFault>
        ensures value { IfOk result (λ found. option_map (λ record_bytes. record_bytes.items) found
            ≡ finite.get (held_by self.old).cells key.now.0) }
        ensures read { IsRead self.old self.new result }
    {
        self.begin_read()?;
        Ok(self.tables().get_cell(key)?)
    }

    fn next_cell(&mut self, after: Option<Hash256>) -> Result<Option<(Hash256, Vec<u8>)>, KeepFault>
        ensures value { IfOk result (λ found. option_map (entry_of hash_bytes) found
            ≡ next_entry (held_by self.old).cells (option_map hash_bytes after)) }
        ensures above { IfOk result (λ found. IfSome found
            (λ entry. IsTrue (is_above (option_map hash_bytes after) entry.0.0))) }
        ensures read { IsRead self.old self.new result }
    {
        self.begin_read()?;
        Ok(self.tables().next_cell(after)?)
    }

    fn get_desc(&mut self, key: &[u8; 80]) -> Result<Option<Vec<u8>>, KeepFault>
        ensures value { IfOk result (λ found. option_map (λ description. description.items) found
            ≡ finite.get (held_by self.old).descs key.now) }
        ensures read { IsRead self.old self.new result }
    {
        self.begin_read()?;
        Ok(self.tables().get_desc(key)?)
    }

    fn next_desc(
        &mut self,
        after: Option<[u8; 80]>,
    ) -> Result<Option<([u8; 80], Vec<u8>)>, KeepFault>
        ensures value { IfOk result (λ found. option_map (entry_of desc_bytes) found
            ≡ next_entry (held_by self.old).descs after) }
        ensures above { IfOk result (λ found. IfSome found
            (λ entry. IsTrue (is_above after entry.0))) }
        ensures read { IsRead self.old self.new result }
    {
        self.begin_read()?;
        Ok(self.tables().next_desc(after)?)
    }

    fn apply(&mut self, batch: &Batch) -> Result<(), KeepFault>
        ensures fails { IsErrOf result KeepFault.Failed ↔ Contains self.old.fails self.old.calls }
        ensures added { OnOk result (self.new ≡ record self.old {
          trail = self.old.trail ++ changed batch.now (held_by self.old) ∷ [];
          calls = one_more self.old.calls;
        }) }
        ensures kept { OnErr result (self.new ≡ record self.old {
          calls = one_more self.old.calls;
          faults = faults_after self.old.faults result;
        }) }
        ensures done { OnOk result (IsApplied (λ k. Some (held_by k)) (λ k. Some k.trail)
            (λ k. length k.trail) batch.now self.old self.new) }
    {
        self.begin_call()?;
        Ok(self.add(batch)?)
    }
}
