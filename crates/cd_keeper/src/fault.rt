ghost use Rattle.cd_keeper.specs.declared.fault.KeepFault.TheVariants.{Failed, Memory};
ghost use Rattle.std.specs.Prelude.{◌≡◌};

use std::alloc::{AllocError, AllocFailed};
use thiserror::Error;

/// Why a call on a keeper has no answer.
#[derive(Clone, Copy, Debug, PartialEq, Eq, Error)]
pub enum KeepFault {
    /// The keeper failed, and its count of faults rose in the call.
    #[error("the keeper failed")]
    Failed,
    /// Memory ran out.
    #[error("out of memory")]
    Memory,
}

impl From<cd_base::Failed> for KeepFault {
    ghost from_gives = { λ _ e. e ≡ Failed };

    fn from(_failed: cd_base::Failed) -> KeepFault {
        KeepFault::Failed
    }
}

impl From<cd_base::Memory> for KeepFault {
    ghost from_gives = { λ _ e. e ≡ Memory };

    fn from(_memory: cd_base::Memory) -> KeepFault {
        KeepFault::Memory
    }
}

impl From<AllocError> for KeepFault {
    ghost from_gives = { λ _ e. e ≡ Memory };

    fn from(_error: AllocError) -> KeepFault {
        KeepFault::Memory
    }
}

impl<T: Drop> From<AllocFailed<T>> for KeepFault {
    ghost from_gives = { λ _ e. e ≡ Memory };

    fn from(_error: AllocFailed<T>) -> KeepFault {
        KeepFault::Memory
    }
}
