ghost use Rattle.std.specs.Prelude.{◌≡◌};
ghost use Rattle.cd_base.specs.declared.read_all_fault.ReadAllFault.TheVariants.{Memory};

use crate::answers::Failed;
use std::alloc::AllocError;
use thiserror::Error;

/// Why a source was not read to its end.
#[derive(Clone, Copy, Debug, PartialEq, Eq, Error)]
pub enum ReadAllFault {
    /// The source failed, and its count of faults rose.
    #[error("the source failed")]
    Failed,
    /// More bytes came than may come.
    #[error("the input is longer than {limit} bytes")]
    Long {
        /// How many bytes may come.
        limit: u64,
    },
    /// Memory ran out.
    #[error("out of memory")]
    Memory,
}

impl From<Failed> for ReadAllFault {
    ghost use Rattle.cd_base.specs.declared.read_all_fault.ReadAllFault.TheVariants.{Failed as Stopped};

    ghost from_gives = { λ _ fault. fault ≡ Stopped };

    fn from(_error: Failed) -> ReadAllFault {
        ReadAllFault::Failed
    }
}

impl From<AllocError> for ReadAllFault {
    ghost from_gives = { λ _ fault. fault ≡ Memory };

    fn from(_error: AllocError) -> ReadAllFault {
        ReadAllFault::Memory
    }
}
