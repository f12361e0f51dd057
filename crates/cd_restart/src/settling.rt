//! A store is opened: scanned, handed to a core, and settled.

ghost use Rattle.std.specs.Prelude.{◌≡◌, ◌≤◌, [], List, IfOk, IfErr, OnOk};
ghost use Rattle.cd_event.specs.Turning.{RisesOnly};
ghost use Rattle.cd_record.specs.declared.limits.TheConstants.{GREATEST_COUNT};
ghost use Rattle.cd_world.specs.declared.world.World.{World};
ghost use Rattle.cd_core.specs.Steps.{is_keeper_fault, IsOutsideFault};
ghost use Rattle.cd_restart.specs.OpenEnds as ends;
ghost use Rattle.cd_restart.specs.OpenEnds.{IsOpenedCore, IsUnopened};
ghost use Rattle.cd_restart.specs.Settled.{IsAll, IsSettling};

use crate::open_fault::OpenFault;
use crate::opening::read_store;
use crate::scan_fault::ScanFault;
use cd_cell::Hash32;
use cd_core::Core;
use cd_event::UnpinFault;
use cd_keeper::Keeper;
use std::alloc::Global;

/// Opens the store that a keeper holds: it must be one that a scan finds nothing wrong with, and the blocks that a stop
/// left leaving are dropped, one batch for each, the least id first. `limit` is the greatest count that a cell may have.
/// The keeper comes back with a fault; after one of the keeper or for want of memory some leaving blocks may be gone.
pub fn open_core<K: Keeper, H: Hash32>(
    alloc: Global,
    mut keeper: K,
    limit: u64,
) -> Result<Core<K, H>, (K, OpenFault)>
    requires limit { (1 ≤ limit) × (limit ≤ GREATEST_COUNT) }
    ensures opened { IfOk result (IsOpenedCore H.digest_of K.Keeper keeper limit) }
    ensures refused { IfErr result (λ refused. IsUnopened H.digest_of K.Keeper keeper refused.0 refused.1) }
{
    let blocks = match read_store::<K, H>(alloc, &mut keeper) {
        Ok(found) => found.blocks,
        Err(fault) => return Err((keeper, by_scan(fault))),
    };
    let mut core = Core::<K, H>::adopt(alloc, keeper, blocks, limit);
    match settle(&mut core) {
        Ok(()) => Ok(core),
        Err(fault) => {
            let (keeper, _) = core.close();
            Err((keeper, by_settling(fault)))
        }
    }
}

/// A scan's fault as that of an opening.
fn by_scan(fault: ScanFault) -> OpenFault
    ensures { result ≡ ends.by_scan fault }
{
    match fault {
        ScanFault::Keeper => OpenFault::Keeper,
        ScanFault::Memory => OpenFault::Memory,
        fault => OpenFault::Damaged(fault),
    }
}

/// A fault while settling as that of an opening.
fn by_settling(fault: UnpinFault) -> OpenFault
    ensures { result ≡ ends.by_settling fault }
{
    match fault {
        UnpinFault::Keeper => OpenFault::Keeper,
        _ => OpenFault::Memory,
    }
}

/// Drops all leaving blocks of a core of which nothing was asked.
fn settle<K: Keeper, H: Hash32>(core: &mut Core<K, H>) -> Result<(), UnpinFault>
    requires { core.old.journal ≡ [] }
    ensures journal { core.new.journal ≡ [] }
    ensures settling { (passed : List World) × IsSettling H.digest_of K.Keeper core.old core.new passed }
    ensures all { IsAll result core.new }
    ensures begun { OnOk result (core.old.start.keeper.value ≡ core.old.keeper
        → core.new.start.keeper.value ≡ core.new.keeper) }
    ensures cause { RisesOnly (is_keeper_fault result) (K.faults core.old.keeper) (K.faults core.new.keeper) }
    ensures outside { IsOutsideFault result }
{
    'settling: for _ in 0..u64::MAX {
        match core.settle_next() {
            Ok(Some(_)) => {}
            Ok(None) => return Ok(()),
            Err(fault) => return Err(fault),
        }
    }
    // No keeper has as many blocks.
    Err(UnpinFault::Memory)
}
