//! A store is opened for a command.
ghost use Rattle.std.specs.Prelude.{◌≡◌, [], IfOk, IfErr};
ghost use Rattle.cd_record.specs.declared.limits.TheConstants.{GREATEST_COUNT};
ghost use Rattle.cd_core.specs.Cores.{IsCore};
ghost use Rattle.cd_restart.specs.OpenEnds.{IsOpenedCore};
ghost use Rattle.cd_command.specs.Opening as spec;
ghost use Rattle.cd_command.specs.Opening.{IsUnopenedBy};

use crate::finished::Finished;
use crate::status::Status;
use cd_cell::Hash32;
use cd_core::Core;
use cd_keeper::Keeper;
use cd_record::GREATEST_COUNT;
use cd_restart::{OpenFault, open_core};
use std::alloc::Global;

/// The status of a call over a store that isn't opened.
fn status_by(fault: OpenFault) -> Status
    ensures { result ≡ spec.status_by fault }
{
    match fault {
        OpenFault::Damaged(fault) => Status::Damaged(fault),
        OpenFault::Keeper => Status::KeeperFault,
        OpenFault::Memory => Status::Memory,
    }
}

/// Opens the store that a keeper holds, as `open_core` does, with the greatest limit of a count; or gives the end of a
/// call over one that isn't opened.
pub fn open_store<K: Keeper, H: Hash32>(
    alloc: Global,
    keeper: K,
) -> Result<Core<K, H>, Finished<K, H>>
    ensures opened { IfOk result (IsOpenedCore H.digest_of K.Keeper keeper GREATEST_COUNT) }
    ensures kept { IfOk result (λ core. IsCore K.held H.digest_of K.trail K.batches K.faults
        core.start core.journal core.keeper) }
    ensures refused { IfErr result (λ ended.
        IsUnopenedBy H.digest_of K.Keeper keeper ended.keeper ended.status) }
    ensures no_entry { IfErr result (λ ended. ended.journal.items ≡ []) }
{
    match open_core::<K, H>(alloc, keeper, GREATEST_COUNT) {
        Ok(core) => {
            let _ = core.journal();
            Ok(core)
        }
        Err((keeper, fault)) => Err(Finished::of(alloc, status_by(fault), keeper)),
    }
}
