use cd_base::{Hash256, Memory as NoMemory};
use thiserror::Error;

/// Why the new half of an update isn't grafted.
#[derive(Clone, Copy, Debug, PartialEq, Eq, Error)]
pub enum GraftFault {
    /// A pruned branch of the new half stands for a cell that isn't known: the first one in preorder, by its hash
    /// at its Merkle depth.
    #[error("the new half hides an unknown cell")]
    Foreign { hash: Hash256 },
    /// Memory ran out.
    #[error("out of memory")]
    Memory,
}

impl From<NoMemory> for GraftFault {
    ghost use Rattle.std.specs.Prelude.{◌≡◌};
    ghost use Rattle.cd_update.specs.declared.graft_fault.GraftFault.TheVariants.{Memory};

    ghost from_gives = { λ _ fault. fault ≡ Memory };

    fn from(_error: NoMemory) -> GraftFault {
        GraftFault::Memory
    }
}
