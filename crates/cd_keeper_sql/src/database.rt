ghost use Rattle.std.specs.Prelude.{◌≡◌, Result};
ghost use Rattle.sqlite.specs.Held.{state};
ghost use Rattle.cd_keeper.specs.declared.fault.KeepFault.{KeepFault};
ghost use Rattle.cd_keeper_sql.specs.OneStep.{IsInside};

use crate::statements::{Statements, TableStatements, fault_of};
use cd_keeper::{Batch, KeepFault};
use sqlite::{Connection, Error, Row, Statement, Transaction, params};
use sqlite_trees::store::Alter;

/// A row of one of the tables: its key and its value.
pub type KeyAndValue = (Vec<u8>, Vec<u8>);

/// What the keeper asks of its database. Each refusal for another cause than memory is `Failed`.
pub trait Database: Drop {
    /// What a batch did to a database: all of it in one step, or nothing, also where it is stopped in its middle.
    ghost is_one_step: { Self → Self → Result (Unit {0}) KeepFault → Type 0 };

    /// The value under a key, if there is one.
    fn value(&mut self, get: &Statement, key: &[u8]) -> Result<Option<Vec<u8>>, KeepFault>;

    /// The row with the least key of all.
    fn first_row(&mut self, first: &Statement) -> Result<Option<KeyAndValue>, KeepFault>;

    /// The row with the least key above another one.
    fn next_row(
        &mut self,
        next: &Statement,
        after: &[u8],
    ) -> Result<Option<KeyAndValue>, KeepFault>;

    /// Makes all of a batch in one transaction, or nothing.
    fn write(&mut self, statements: &Statements, batch: &Batch) -> Result<(), KeepFault>
        ensures { is_one_step self.old self.new result };
}

impl<S: Alter + Drop> Database for Connection<S> {
    ghost use Rattle.cd_keeper_sql.specs.OneStep.{IsOneStep};

    ghost is_one_step = { λ old new result. IsOneStep (state S.Store old) (state S.Store new) result };

    fn value(&mut self, get: &Statement, key: &[u8]) -> Result<Option<Vec<u8>>, KeepFault> {
        match get.query_row(self, params![key]) {
            Ok(row) => match row.get(0) {
                Ok(value) => Ok(Some(value)),
                Err(error) => Err(fault_of(error)),
            },
            Err(Error::QueryReturnedNoRows) => Ok(None),
            Err(error) => Err(fault_of(error)),
        }
    }

    fn first_row(&mut self, first: &Statement) -> Result<Option<KeyAndValue>, KeepFault> {
        row_of(first.query_row(self, &[]))
    }

    fn next_row(
        &mut self,
        next: &Statement,
        after: &[u8],
    ) -> Result<Option<KeyAndValue>, KeepFault> {
        row_of(next.query_row(self, params![after]))
    }

    fn write(&mut self, statements: &Statements, batch: &Batch) -> Result<(), KeepFault> {
        if !self.is_autocommit() {
            return Err(KeepFault::Failed);
        }
        // Where it is dropped before its commit it rolls back.
        let mut transaction = self.transaction();
        fill(&mut transaction, statements, batch)?;
        match transaction.commit() {
            Ok(()) => Ok(()),
            Err(error) => Err(fault_of(error)),
        }
    }
}

fn row_of(found: Result<Row, Error>) -> Result<Option<KeyAndValue>, KeepFault> {
    let row = match found {
        Ok(row) => row,
        Err(Error::QueryReturnedNoRows) => return Ok(None),
        Err(error) => return Err(fault_of(error)),
    };
    match key_and_value(&row) {
        Ok(both) => Ok(Some(both)),
        Err(error) => Err(fault_of(error)),
    }
}

fn key_and_value(row: &Row) -> Result<KeyAndValue, Error> {
    let key = row.get(0)?;
    let value = row.get(1)?;
    Ok((key, value))
}

/// Runs the statements of a batch.
fn fill<S: Alter>(
    transaction: &mut Transaction<'_, S>,
    statements: &Statements,
    batch: &Batch,
) -> Result<(), KeepFault>
    ensures same { transaction.new.conn.ghost_name ≡ transaction.old.conn.ghost_name }
    ensures inside { IsInside (state S.Store transaction.old.conn.now) (state S.Store transaction.new.conn.now) }
{
    fill_cells(transaction, &statements.cells, batch)?;
    fill_descs(transaction, &statements.descs, batch)
}

#[tactic(auto, using(crate::proofs::Inside::inside_same, crate::proofs::Inside::inside_then))]
fn fill_cells<S: Alter>(
    transaction: &mut Transaction<'_, S>,
    table: &TableStatements,
    batch: &Batch,
) -> Result<(), KeepFault>
    ensures same { transaction.new.conn.ghost_name ≡ transaction.old.conn.ghost_name }
    ensures inside { IsInside (state S.Store transaction.old.conn.now) (state S.Store transaction.new.conn.now) }
{
    'drops: for key in batch.drop_cells() {
        drop_row(transaction, table, &key.0)?;
    }
    'puts: for (key, record) in batch.put_cells() {
        put_row(transaction, table, &key.0, record.as_slice())?;
    }
    Ok(())
}

#[tactic(auto, using(crate::proofs::Inside::inside_same, crate::proofs::Inside::inside_then))]
fn fill_descs<S: Alter>(
    transaction: &mut Transaction<'_, S>,
    table: &TableStatements,
    batch: &Batch,
) -> Result<(), KeepFault>
    ensures same { transaction.new.conn.ghost_name ≡ transaction.old.conn.ghost_name }
    ensures inside { IsInside (state S.Store transaction.old.conn.now) (state S.Store transaction.new.conn.now) }
{
    'drops: for key in batch.drop_descs() {
        drop_row(transaction, table, key)?;
    }
    'puts: for (key, value) in batch.put_descs() {
        put_row(transaction, table, key, value.as_slice())?;
    }
    Ok(())
}

/// Writes a row anew where its key is held, which costs a quarter of taking it out and in, and else puts it in.
fn put_row<S: Alter>(
    transaction: &mut Transaction<'_, S>,
    table: &TableStatements,
    key: &[u8],
    value: &[u8],
) -> Result<(), KeepFault>
    ensures same { transaction.new.conn.ghost_name ≡ transaction.old.conn.ghost_name }
    ensures inside { IsInside (state S.Store transaction.old.conn.now) (state S.Store transaction.new.conn.now) }
{
    if run(transaction, &table.writing.update, key, value)? == 0 {
        run(transaction, &table.writing.insert, key, value)?;
    }
    Ok(())
}

/// How many rows a statement changed.
fn run<S: Alter>(
    transaction: &mut Transaction<'_, S>,
    statement: &Statement,
    key: &[u8],
    value: &[u8],
) -> Result<usize, KeepFault>
    ensures same { transaction.new.conn.ghost_name ≡ transaction.old.conn.ghost_name }
    ensures inside { IsInside (state S.Store transaction.old.conn.now) (state S.Store transaction.new.conn.now) }
{
    match transaction.execute_prepared(statement, params![key, value]) {
        Ok(count) => Ok(count),
        Err(error) => Err(fault_of(error)),
    }
}

fn drop_row<S: Alter>(
    transaction: &mut Transaction<'_, S>,
    table: &TableStatements,
    key: &[u8],
) -> Result<(), KeepFault>
    ensures same { transaction.new.conn.ghost_name ≡ transaction.old.conn.ghost_name }
    ensures inside { IsInside (state S.Store transaction.old.conn.now) (state S.Store transaction.new.conn.now) }
{
    match transaction.execute_prepared(&table.writing.drop_row, params![key]) {
        Ok(_) => Ok(()),
        Err(error) => Err(fault_of(error)),
    }
}
