//! A keeper over a database file.

ghost use Rattle.std.specs.Prelude.{◌≡◌, codes, IfOk, OnOk, OnErr};
ghost use Rattle.cd_keeper.specs.Keeping.{HasKeepCause, IsApplied, KeepsHeld};
ghost use Rattle.cd_keeper_sql.specs.Counting.{IsUncounted};

use crate::keeper::SqlKeeperOver;
use crate::statements::fault_of;
use cd_base::Hash256;
use cd_keeper::{Batch, KeepFault, Keeper};
use sqlite::{Connection, File, FileStore};

/// A keeper over a database file and the log beside it. It names no type of the database's, so that a program which
/// hands it on is checked without them.
#[derive(Drop)]
pub struct SqlKeeper {
    over: SqlKeeperOver<Connection<FileStore<File>>>,
}

/// The same value, of a type that can be moved to another thread.
fn movable<T: Send>(value: T) -> T
    ensures { result ≡ value }
{
    value
}

impl SqlKeeper {
    /// Opens the database file at a path, or makes it, and makes both tables where they aren't there. `Failed` where the
    /// database refuses for another cause than memory: where another handle has the file open, say, or it is no database,
    /// or a table of these names has other columns. The keeper can be moved to another thread.
    pub fn open(rt: &HostRuntime, path: &str) -> Result<SqlKeeper, KeepFault>
        ensures new { IfOk result (λ keeper.
            IsUncounted keeper.over.batches keeper.over.faults keeper.over.reads) }
        ensures no_file { path.now ≡ codes ":memory:" → result ≡ Err KeepFault.Failed }
    {
        match Connection::open(rt, path) {
            Ok(database) => match SqlKeeperOver::over(database) {
                Ok(over) => Ok(movable(SqlKeeper { over })),
                Err(fault) => Err(fault),
            },
            Err(error) => Err(fault_of(error)),
        }
    }
}

impl Keeper for SqlKeeper {
    ghost use Rattle.std.specs.Prelude.{None};

    ghost held = { λ _. None };

    ghost trail = { λ _. None };

    ghost batches = { λ keeper. keeper.over.batches };

    ghost faults = { λ keeper. keeper.over.faults };

    ghost reads = { λ keeper. keeper.over.reads };

    fn get_cell(&mut self, key: &Hash256) -> Result<Option<Vec<u8>>, KeepFault> {
        self.over.get_cell(key)
    }

    fn next_cell(
        &mut self,
        after: Option<Hash256>,
    ) -> Result<Option<(Hash256, Vec<u8>)>, KeepFault> {
        self.over.next_cell(after)
    }

    fn get_desc(&mut self, key: &[u8; 80]) -> Result<Option<Vec<u8>>, KeepFault> {
        self.over.get_desc(key)
    }

    fn next_desc(
        &mut self,
        after: Option<[u8; 80]>,
    ) -> Result<Option<([u8; 80], Vec<u8>)>, KeepFault> {
        self.over.next_desc(after)
    }

    fn apply(&mut self, batch: &Batch) -> Result<(), KeepFault> {
        self.over.apply(batch)
    }
}
