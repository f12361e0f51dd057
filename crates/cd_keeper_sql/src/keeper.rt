ghost use Rattle.std.specs.Prelude.{◌≡◌, IsTrue, IfOk, IfSome, None, OnOk, OnErr};
ghost use Rattle.std.specs.Option.{option_map};
ghost use Rattle.cd_keeper.specs.Contents.{is_above};
ghost use Rattle.cd_keeper.specs.Keeping.{HasKeepCause, IsApplied, KeepsHeld};
ghost use Rattle.cd_keeper.specs.Shown.{hash_bytes};
ghost use Rattle.cd_keeper_sql.specs.Counting.{count_after, IsUncounted};

use crate::database::{Database, KeyAndValue};
use crate::keys::{desc_key_above, hash_above};
use crate::statements::Statements;
use cd_base::Hash256;
use cd_keeper::{Batch, KeepFault, Keeper};
use sqlite::Connection;
use sqlite_trees::store::Alter;

/// A keeper over a database, which tells nothing of its contents. It can be moved to another thread where its database
/// can.
#[derive(Drop)]
pub struct SqlKeeperOver<C: Database> {
    database: C,
    statements: Statements,
    batches: u64,
    faults: u64,
    reads: u64,
}

impl<S: Alter + Drop> SqlKeeperOver<Connection<S>> {
    /// A keeper over an open database. Both tables are made where they aren't there. `Failed` where the database
    /// refuses that: a table of these names with other columns, say.
    pub fn over(database: Connection<S>) -> Result<SqlKeeperOver<Connection<S>>, KeepFault>
        ensures new { IfOk result (λ keeper. IsUncounted keeper.batches keeper.faults keeper.reads) }
    {
        let mut database = database;
        match Statements::prepare(&mut database) {
            Ok(statements) => Ok(SqlKeeperOver::new(database, statements)),
            Err(fault) => Err(fault),
        }
    }
}

impl<C: Database> SqlKeeperOver<C> {
    /// A keeper over a database and the statements that were prepared for it.
    pub fn new(database: C, statements: Statements) -> SqlKeeperOver<C>
        ensures { IsUncounted result.batches result.faults result.reads }
    {
        SqlKeeperOver {
            database,
            statements,
            batches: 0,
            faults: 0,
            reads: 0,
        }
    }
}

/// Raises a count of faults where a call failed.
fn count_fault<T>(faults: &mut u64, answer: &Result<T, KeepFault>)
    ensures { faults.new ≡ count_after faults.old answer.now }
{
    if let Err(KeepFault::Failed) = answer {
        *faults = faults.saturating_add(1);
    }
}

/// The row of a cell, where its key is one.
fn cell_of(
    after: &Option<Hash256>,
    row: Result<Option<KeyAndValue>, KeepFault>,
) -> Result<Option<(Hash256, Vec<u8>)>, KeepFault>
    ensures { IfOk result (λ found. IfSome found
        (λ entry. IsTrue (is_above (option_map hash_bytes after.now) entry.0.0))) }
{
    match row {
        Ok(Some((key, record))) => match hash_above(after, key.as_slice()) {
            Some(hash) => Ok(Some((hash, record))),
            None => Err(KeepFault::Failed),
        },
        Ok(None) => Ok(None),
        Err(fault) => Err(fault),
    }
}

/// The row of a description, where its key is one.
fn desc_of(
    after: &Option<[u8; 80]>,
    row: Result<Option<KeyAndValue>, KeepFault>,
) -> Result<Option<([u8; 80], Vec<u8>)>, KeepFault>
    ensures { IfOk result (λ found. IfSome found
        (λ entry. IsTrue (is_above after.now entry.0))) }
{
    match row {
        Ok(Some((key, value))) => match desc_key_above(after, key.as_slice()) {
            Some(key) => Ok(Some((key, value))),
            None => Err(KeepFault::Failed),
        },
        Ok(None) => Ok(None),
        Err(fault) => Err(fault),
    }
}

impl<C: Database> Keeper for SqlKeeperOver<C> {
    ghost use Rattle.std.specs.Prelude.{None};

    ghost held = { λ _. None };

    ghost trail = { λ _. None };

    ghost batches = { λ keeper. keeper.batches };

    ghost faults = { λ keeper. keeper.faults };

    ghost reads = { λ keeper. keeper.reads };

    fn get_cell(&mut self, key: &Hash256) -> Result<Option<Vec<u8>>, KeepFault> {
        self.reads = self.reads.saturating_add(1);
        let found = self
            .database
            .value(&self.statements.cells.reading.get, &key.0);
        count_fault(&mut self.faults, &found);
        found
    }

    fn next_cell(
        &mut self,
        after: Option<Hash256>,
    ) -> Result<Option<(Hash256, Vec<u8>)>, KeepFault> {
        self.reads = self.reads.saturating_add(1);
        let table = &self.statements.cells;
        let row = match &after {
            Some(key) => self.database.next_row(&table.reading.next, &key.0),
            None => self.database.first_row(&table.reading.first),
        };
        let found = cell_of(&after, row);
        count_fault(&mut self.faults, &found);
        found
    }

    fn get_desc(&mut self, key: &[u8; 80]) -> Result<Option<Vec<u8>>, KeepFault> {
        self.reads = self.reads.saturating_add(1);
        let found = self.database.value(&self.statements.descs.reading.get, key);
        count_fault(&mut self.faults, &found);
        found
    }

    fn next_desc(
        &mut self,
        after: Option<[u8; 80]>,
    ) -> Result<Option<([u8; 80], Vec<u8>)>, KeepFault> {
        self.reads = self.reads.saturating_add(1);
        let table = &self.statements.descs;
        let row = match &after {
            Some(key) => self.database.next_row(&table.reading.next, key),
            None => self.database.first_row(&table.reading.first),
        };
        let found = desc_of(&after, row);
        count_fault(&mut self.faults, &found);
        found
    }

    fn apply(&mut self, batch: &Batch) -> Result<(), KeepFault>
        // The whole batch is one step of the database, also where it is stopped in its middle.
        ensures whole { C.is_one_step self.old.database self.new.database result }
        ensures done { OnOk result (IsApplied (λ _. None) (λ _. None) (λ keeper. keeper.batches)
            batch.now self.old self.new) }
        ensures undone { OnErr result (KeepsHeld (λ _. None) (λ _. None) (λ keeper. keeper.batches)
            self.old self.new) }
        ensures reads { self.new.reads ≡ self.old.reads }
        ensures cause { HasKeepCause self.old.faults self.new.faults result }
    {
        let done = self.database.write(&self.statements, batch);
        count_fault(&mut self.faults, &done);
        if done.is_ok() {
            self.batches = self.batches.saturating_add(1);
        }
        done
    }
}
