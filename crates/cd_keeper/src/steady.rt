ghost use Rattle.std.specs.Prelude.{◌≡◌, OnOk, OnErr, IsErrOf};
ghost use Rattle.cd_base.specs.Counts.{one_more};
ghost use Rattle.cd_keeper.specs.Contents.{no_contents, changed};
ghost use Rattle.cd_keeper.specs.Memories.{steady_of, with_cell, with_desc};

use crate::batch::Batch;
use crate::fault::KeepFault;
use crate::keeper::Keeper;
use crate::tables::Tables;
use cd_base::{Hash256, Memory, one_more};
use std::alloc::Global;
use std::marker::Model;

/// A keeper in memory that never fails. Its values are copies, and a batch is made in place.
#[derive(Drop)]
pub struct SteadyKeeper {
    tables: Tables,
    batches: u64,
    reads: u64,
}

impl Model for SteadyKeeper {
    ghost use Rattle.cd_keeper.specs.Memories.{SteadyView, coded_steady};

    ghost Value = { SteadyView };

    ghost coded = { coded_steady };

    ghost view = { λ keeper. record {
      contents = keeper.tables;
      batches = keeper.batches;
      reads = keeper.reads;
    } };
}

impl SteadyKeeper {
    /// A keeper that holds nothing.
    pub fn new(alloc: Global) -> SteadyKeeper
        ensures { result ≡ steady_of no_contents }
    {
        SteadyKeeper::of_tables(Tables::new(alloc))
    }

    /// A keeper that holds these tables.
    pub(crate) fn of_tables(tables: Tables) -> SteadyKeeper
        ensures { result ≡ steady_of tables }
    {
        SteadyKeeper {
            tables,
            batches: 0,
            reads: 0,
        }
    }

    /// How many batches were applied.
    pub fn batches(&self) -> u64
        ensures { result ≡ self.now.batches }
    {
        self.batches
    }

    /// How many reading calls there were.
    pub fn reads(&self) -> u64
        ensures { result ≡ self.now.reads }
    {
        self.reads
    }

    /// Writes any bytes under the hash of a cell. This is no batch; it is meant for tests.
    pub fn put_raw_cell(&mut self, key: Hash256, value: Vec<u8>) -> Result<(), Memory>
        ensures ok { OnOk result (self.new
            ≡ record self.old { contents = with_cell self.old.contents key.0 value.items }) }
        ensures err { OnErr result (self.new ≡ self.old) }
    {
        self.tables.put_cell(key, value)
    }

    /// Writes any bytes under the key of a description. This is no batch; it is meant for tests.
    pub fn put_raw_desc(&mut self, key: [u8; 80], value: Vec<u8>) -> Result<(), Memory>
        ensures ok { OnOk result (self.new
            ≡ record self.old { contents = with_desc self.old.contents key value.items }) }
        ensures err { OnErr result (self.new ≡ self.old) }
    {
        self.tables.put_desc(key, value)
    }
}

impl Keeper for SteadyKeeper {
    ghost use Rattle.std.specs.Prelude.{Some, None};

    ghost held = { λ keeper. Some keeper.contents };

    ghost trail = { λ _. None };

    ghost batches = { λ keeper. keeper.batches };

    ghost faults = { λ _. 0 };

    ghost reads = { λ keeper. keeper.reads };

    fn get_cell(&mut self, key: &Hash256) -> Result<Option<Vec<u8>>, KeepFault> {
        self.reads = one_more(self.reads);
        Ok(self.tables.get_cell(key)?)
    }

    fn next_cell(
        &mut self,
        after: Option<Hash256>,
    ) -> Result<Option<(Hash256, Vec<u8>)>, KeepFault> {
        self.reads = one_more(self.reads);
        Ok(self.tables.next_cell(after)?)
    }

    fn get_desc(&mut self, key: &[u8; 80]) -> Result<Option<Vec<u8>>, KeepFault> {
        self.reads = one_more(self.reads);
        Ok(self.tables.get_desc(key)?)
    }

    fn next_desc(
        &mut self,
        after: Option<[u8; 80]>,
    ) -> Result<Option<([u8; 80], Vec<u8>)>, KeepFault> {
        self.reads = one_more(self.reads);
        Ok(self.tables.next_desc(after)?)
    }

    fn apply(&mut self, batch: &Batch) -> Result<(), KeepFault> {
        self.tables.apply(batch)?;
        self.batches = one_more(self.batches);
        Ok(())
    }
}
