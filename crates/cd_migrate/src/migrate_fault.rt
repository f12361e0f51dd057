use cd_base::Memory as NoMemory;
use cd_keeper::KeepFault;
use thiserror::Error;

/// Why a migration stopped. The batches that were made stand.
#[derive(Clone, Copy, Debug, PartialEq, Eq, Error)]
pub enum MigrateFault {
    /// The keeper failed, and its count of faults rose in the call.
    #[error("the keeper failed")]
    Keeper,
    /// Memory ran out.
    #[error("out of memory")]
    Memory,
}

impl From<NoMemory> for MigrateFault {
    ghost use Rattle.std.specs.Prelude.{◌≡◌};
    ghost use Rattle.cd_migrate.specs.declared.migrate_fault.MigrateFault.TheVariants.{Memory};

    ghost from_gives = { λ _ fault. fault ≡ Memory };

    fn from(_error: NoMemory) -> MigrateFault {
        MigrateFault::Memory
    }
}

impl From<KeepFault> for MigrateFault {
    ghost use Rattle.std.specs.Prelude.{◌≡◌};
    ghost use Rattle.cd_migrate.specs.Answers.{of_keep};

    ghost from_gives = { λ given fault. fault ≡ of_keep given };

    fn from(fault: KeepFault) -> MigrateFault {
        match fault {
            KeepFault::Failed => MigrateFault::Keeper,
            KeepFault::Memory => MigrateFault::Memory,
        }
    }
}
