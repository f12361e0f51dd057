//! The command `migrate`.
ghost use Rattle.std.specs.Prelude.{◌≡◌, [], IfOk, IfErr};
ghost use Rattle.cd_upkeep.specs.MigrateCall.{MigrateEnds, IsMigrated, IsUnmigrated};
ghost use Rattle.cd_upkeep.specs.MigrateCall as spec;

use crate::checking::read_store;
use crate::texts::migrated_text;
use cd_base::Sink;
use cd_cell::Hash32;
use cd_command::{Finished, Status, print};
use cd_keeper::Keeper;
use cd_migrate::{MigrateFault, Migrated, migrate};
use std::alloc::Global;

/// The status of a call whose migration stopped.
fn status_by(fault: MigrateFault) -> Status
    ensures { result ≡ spec.status_by fault }
{
    match fault {
        MigrateFault::Keeper => Status::KeeperFault,
        MigrateFault::Memory => Status::Memory,
    }
}

/// Reads the whole store, and rewrites its old records; or gives the status of a call that did not.
fn rewrite<K: Keeper, H: Hash32>(alloc: Global, keeper: &mut K) -> Result<Migrated, Status>
    ensures done { IfOk result (IsMigrated H.digest_of K.Keeper keeper.old keeper.new) }
    ensures refused { IfErr result (IsUnmigrated H.digest_of K.Keeper keeper.old keeper.new) }
{
    match read_store::<K, H>(alloc, keeper) {
        Ok(_) => {}
        Err(status) => return Err(status),
    }
    match migrate(alloc, keeper) {
        Ok(done) => Ok(done),
        Err(fault) => Err(status_by(fault)),
    }
}

/// Rewrites the old records of a store, and writes how many there were.
fn rewrite_and_print<O: Sink, K: Keeper, H: Hash32>(
    alloc: Global,
    out: &mut O,
    keeper: &mut K,
) -> Status
    ensures { MigrateEnds H.digest_of K.Keeper O.Sink out.old out.new keeper.old keeper.new result }
{
    let done = match rewrite::<K, H>(alloc, keeper) {
        Ok(done) => done,
        Err(status) => return status,
    };
    match migrated_text(alloc, &done) {
        Ok(text) => print(out, text.as_bytes()),
        Err(_) => Status::Memory,
    }
}

/// The command `migrate`: reads the whole store, rewrites its records of the first version in the second, 4,096 in each
/// batch, and writes the numbers of all records and of those that it rewrote, a line each. It settles nothing.
pub fn migrate_store<O: Sink, K: Keeper, H: Hash32>(
    alloc: Global,
    out: &mut O,
    mut keeper: K,
) -> Finished<K, H>
    ensures ends { MigrateEnds H.digest_of K.Keeper O.Sink out.old out.new keeper result.keeper result.status }
    ensures no_entry { result.journal.items ≡ [] }
{
    let status = rewrite_and_print::<O, K, H>(alloc, out, &mut keeper);
    Finished::of(alloc, status, keeper)
}
