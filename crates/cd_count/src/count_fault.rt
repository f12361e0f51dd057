use cd_base::{Hash256, Memory as NoMemory};
use cd_cell::Face;
use cd_keeper::KeepFault;
use std::alloc::{AllocError, AllocFailed};
use thiserror::Error;

/// Why blocks can't come or go.
#[derive(Clone, Copy, Debug, PartialEq, Eq, Error)]
pub enum CountFault {
    /// Another cell is stored under the hash of a listed one; it is the least such hash.
    #[error("another cell is stored under a hash")]
    Clash {
        hash: Hash256,
        stored: Face,
        offered: Face,
    },
    /// The count of this hash would rise over the limit, to this one; it is the least such hash.
    #[error("a count would rise to {count}")]
    CountFull {
        hash: Hash256,
        count: u64,
    },
    /// The keeper failed, and its count of faults rose in the call.
    #[error("the keeper failed")]
    Keeper,
    /// Memory ran out.
    #[error("out of memory")]
    Memory,
}

impl From<NoMemory> for CountFault {
    ghost use Rattle.std.specs.Prelude.{◌≡◌};
    ghost use Rattle.cd_count.specs.declared.count_fault.CountFault.TheVariants.{Memory};

    ghost from_gives = { λ _ fault. fault ≡ Memory };

    fn from(_error: NoMemory) -> CountFault {
        CountFault::Memory
    }
}

impl From<AllocError> for CountFault {
    ghost use Rattle.std.specs.Prelude.{◌≡◌};
    ghost use Rattle.cd_count.specs.declared.count_fault.CountFault.TheVariants.{Memory};

    ghost from_gives = { λ _ fault. fault ≡ Memory };

    fn from(_error: AllocError) -> CountFault {
        CountFault::Memory
    }
}

impl<T: Drop> From<AllocFailed<T>> for CountFault {
    ghost use Rattle.std.specs.Prelude.{◌≡◌};
    ghost use Rattle.cd_count.specs.declared.count_fault.CountFault.TheVariants.{Memory};

    ghost from_gives = { λ _ fault. fault ≡ Memory };

    fn from(_error: AllocFailed<T>) -> CountFault {
        CountFault::Memory
    }
}

impl From<KeepFault> for CountFault {
    ghost use Rattle.std.specs.Prelude.{◌≡◌};
    ghost use Rattle.cd_count.specs.Reading.{of_keep};

    ghost from_gives = { λ given fault. fault ≡ of_keep given };

    fn from(fault: KeepFault) -> CountFault {
        match fault {
            KeepFault::Failed => CountFault::Keeper,
            KeepFault::Memory => CountFault::Memory,
        }
    }
}
