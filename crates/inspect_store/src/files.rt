//! A database file and its log, which were read into memory.

ghost use Rattle.std.specs.Prelude.{IsTrue, IfOk};
ghost use Rattle.sqlite_disk.specs.Memory.{memory_is_usable};
ghost use Rattle.inspect_store.specs.StoreVerdicts.{IsOwnVerdict};

use crate::verdict::{StoreVerdict, verdict_of};
use cd_cell::Hash32;
use cd_keeper::KeepFault;
use cd_keeper_sql::SqlKeeperOver;
use sqlite::{Alter, Connection, Error, ErrorCode, FileStore, Files, Options};
use sqlite_disk::{Disk, Memory};
use std::alloc::{AllocError, Global};

/// A file in memory that holds these bytes.
fn file_of(alloc: Global, bytes: &[u8]) -> Result<Memory, AllocError>
    ensures { IfOk result (λ file. IsTrue (memory_is_usable file)) }
{
    let mut file = Memory::new(alloc);
    match file.write_at(0, bytes) {
        Ok(()) => Ok(file),
        Err(_) => Err(AllocError),
    }
}

/// A database over a file and its log, if they hold one.
fn database_of(
    alloc: Global,
    file: &[u8],
    log: &[u8],
) -> Result<Option<Connection<FileStore<Memory>>>, AllocError> {
    let files = Files {
        log: file_of(alloc, log)?,
        db: file_of(alloc, file)?,
    };
    match Connection::open_files(alloc, files, Options::new(0)) {
        Ok(database) => Ok(Some(database)),
        Err((Error::SqliteFailure(ErrorCode::OutOfMemory), _)) => Err(AllocError),
        Err(_) => Ok(None),
    }
}

/// What is said of the store in a database.
fn verdict_over<S: Alter + Drop, H: Hash32>(
    alloc: Global,
    database: Connection<S>,
) -> Result<StoreVerdict, AllocError>
    ensures own { IfOk result IsOwnVerdict }
{
    match SqlKeeperOver::over(database) {
        Ok(mut keeper) => verdict_of::<_, H>(alloc, &mut keeper),
        Err(KeepFault::Memory) => Err(AllocError),
        Err(KeepFault::Failed) => Ok(StoreVerdict::NoDatabase),
    }
}

/// What is said of the store in a database file with this log, unless memory runs out. Both are opened as they lie in
/// memory, so no file is touched.
pub fn verdict_of_files<H: Hash32>(
    alloc: Global,
    file: &[u8],
    log: &[u8],
) -> Result<StoreVerdict, AllocError>
    ensures { IfOk result IsOwnVerdict }
{
    match database_of(alloc, file, log)? {
        Some(database) => verdict_over::<_, H>(alloc, database),
        None => Ok(StoreVerdict::NoDatabase),
    }
}
