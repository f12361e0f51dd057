ghost use Rattle.std.specs.Prelude.{◌≡◌};
ghost use Rattle.cd_keeper_sql.specs.Counting as counting;

use cd_keeper::KeepFault;
use sqlite::{Connection, Error, ErrorCode, Statement};
use sqlite_trees::store::Alter;

const MAKE_TABLES: &str =
    "CREATE TABLE IF NOT EXISTS cells (key BLOB PRIMARY KEY, record BLOB NOT NULL);
CREATE TABLE IF NOT EXISTS descs (key BLOB PRIMARY KEY, value BLOB NOT NULL)";

/// The texts of the statements over one table.
struct TableTexts {
    get: &'static str,
    first: &'static str,
    next: &'static str,
    update: &'static str,
    insert: &'static str,
    drop_row: &'static str,
}

const CELLS: TableTexts = TableTexts {
    get: "SELECT record FROM cells WHERE key = ?1",
    first: "SELECT key, record FROM cells ORDER BY key LIMIT 1",
    next: "SELECT key, record FROM cells WHERE key > ?1 ORDER BY key LIMIT 1",
    update: "UPDATE cells SET record = ?2 WHERE key = ?1",
    insert: "INSERT INTO cells (key, record) VALUES (?1, ?2)",
    drop_row: "DELETE FROM cells WHERE key = ?1",
};

const DESCS: TableTexts = TableTexts {
    get: "SELECT value FROM descs WHERE key = ?1",
    first: "SELECT key, value FROM descs ORDER BY key LIMIT 1",
    next: "SELECT key, value FROM descs WHERE key > ?1 ORDER BY key LIMIT 1",
    update: "UPDATE descs SET value = ?2 WHERE key = ?1",
    insert: "INSERT INTO descs (key, value) VALUES (?1, ?2)",
    drop_row: "DELETE FROM descs WHERE key = ?1",
};

/// The statements that read a table.
#[derive(Drop)]
pub struct Reading {
    pub get: Statement,
    pub first: Statement,
    pub next: Statement,
}

/// The statements that change a table.
#[derive(Drop)]
pub struct Writing {
    pub update: Statement,
    pub insert: Statement,
    pub drop_row: Statement,
}

/// The statements over one table, prepared once.
#[derive(Drop)]
pub struct TableStatements {
    pub reading: Reading,
    pub writing: Writing,
}

/// The statements over the tables of cells and of descriptions.
#[derive(Drop)]
pub struct Statements {
    pub cells: TableStatements,
    pub descs: TableStatements,
}

/// Want of memory is told apart; each other refusal of the database is a fault.
pub(crate) fn fault_of(error: Error) -> KeepFault
    ensures { result ≡ counting.fault_of error }
{
    match error {
        Error::SqliteFailure(ErrorCode::OutOfMemory) => KeepFault::Memory,
        _ => KeepFault::Failed,
    }
}

fn prepare<S: Alter>(database: &mut Connection<S>, text: &str) -> Result<Statement, KeepFault> {
    match database.prepare(text) {
        Ok(statement) => Ok(statement),
        Err(error) => Err(fault_of(error)),
    }
}

fn prepare_reading<S: Alter>(
    database: &mut Connection<S>,
    texts: &TableTexts,
) -> Result<Reading, KeepFault> {
    let get = prepare(database, texts.get)?;
    let first = prepare(database, texts.first)?;
    let next = prepare(database, texts.next)?;
    Ok(Reading { get, first, next })
}

fn prepare_writing<S: Alter>(
    database: &mut Connection<S>,
    texts: &TableTexts,
) -> Result<Writing, KeepFault> {
    let update = prepare(database, texts.update)?;
    let insert = prepare(database, texts.insert)?;
    let drop_row = prepare(database, texts.drop_row)?;
    Ok(Writing {
        update,
        insert,
        drop_row,
    })
}

fn prepare_table<S: Alter>(
    database: &mut Connection<S>,
    texts: &TableTexts,
) -> Result<TableStatements, KeepFault> {
    let reading = prepare_reading(database, texts)?;
    let writing = prepare_writing(database, texts)?;
    Ok(TableStatements { reading, writing })
}

impl Statements {
    /// Makes both tables where they aren't there, and prepares the statements.
    pub(crate) fn prepare<S: Alter>(database: &mut Connection<S>) -> Result<Statements, KeepFault> {
        match database.execute_batch(MAKE_TABLES) {
            Ok(()) => {}
            Err(error) => return Err(fault_of(error)),
        }
        let cells = prepare_table(database, &CELLS)?;
        let descs = prepare_table(database, &DESCS)?;
        Ok(Statements { cells, descs })
    }
}
