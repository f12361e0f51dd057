//! The command `check`.
ghost use Rattle.std.specs.Prelude.{◌≡◌, [], IfOk, IfErr};
ghost use Rattle.cd_upkeep.specs.CheckCall.{CheckEnds, IsChecked, IsUnchecked};
ghost use Rattle.cd_upkeep.specs.CheckCall as spec;

use crate::texts::totals_text;
use cd_base::Sink;
use cd_cell::Hash32;
use cd_command::{Finished, Status, print};
use cd_keeper::Keeper;
use cd_restart::{Opened, ScanFault, scan};
use std::alloc::Global;

/// The status of a call over a store that a scan refuses.
fn status_by(fault: ScanFault) -> Status
    ensures { result ≡ spec.status_by fault }
{
    match fault {
        ScanFault::Keeper => Status::KeeperFault,
        ScanFault::Memory => Status::Memory,
        fault => Status::Damaged(fault),
    }
}

/// Reads the whole store, or gives the status of a call over one that is none.
pub fn read_store<K: Keeper, H: Hash32>(alloc: Global, keeper: &mut K) -> Result<Opened, Status>
    ensures read { IfOk result (IsChecked H.digest_of K.Keeper keeper.old keeper.new) }
    ensures refused { IfErr result (IsUnchecked H.digest_of K.Keeper keeper.old keeper.new) }
{
    match scan::<K, H>(alloc, keeper) {
        Ok(opened) => Ok(opened),
        Err(fault) => Err(status_by(fault)),
    }
}

/// Reads the whole store, and writes how much it holds.
fn check_and_print<O: Sink, K: Keeper, H: Hash32>(
    alloc: Global,
    out: &mut O,
    keeper: &mut K,
) -> Status
    ensures { CheckEnds H.digest_of K.Keeper O.Sink out.old out.new keeper.old keeper.new result }
{
    let opened = match read_store::<K, H>(alloc, keeper) {
        Ok(opened) => opened,
        Err(status) => return status,
    };
    match totals_text(alloc, &opened) {
        Ok(text) => print(out, text.as_bytes()),
        Err(_) => Status::Memory,
    }
}

/// The command `check`: reads the whole store, and writes the numbers of its blocks, of its distinct cells, and of all
/// references to cells, a line each. It settles nothing and makes no batch.
pub fn check<O: Sink, K: Keeper, H: Hash32>(
    alloc: Global,
    out: &mut O,
    mut keeper: K,
) -> Finished<K, H>
    ensures ends { CheckEnds H.digest_of K.Keeper O.Sink out.old out.new keeper result.keeper result.status }
    ensures no_entry { result.journal.items ≡ [] }
{
    let status = check_and_print::<O, K, H>(alloc, out, &mut keeper);
    Finished::of(alloc, status, keeper)
}
