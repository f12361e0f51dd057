use cd_base::Hash256;
use cd_cell::{Face, Mask};
use cd_update::{GraftFault, PairFault};
use std::alloc::{AllocError, AllocFailed};
use thiserror::Error;

/// Why a bag or an update gives no prepared value.
#[derive(Clone, Copy, Debug, PartialEq, Eq, Error)]
pub enum PrepareFault {
    /// A state is a bag of one root, and this one has another number of them. The number stands still at the last u32.
    #[error("{roots} roots")]
    Roots {
        roots: u32,
    },
    /// The root of a state has mask 0, and this one has another.
    #[error("a root of level {}", mask.level())]
    Level {
        mask: Mask,
    },
    /// The update states another hash of the old tree at level 0 than its root has.
    #[error("another old hash")]
    OldHash {
        stated: Hash256,
        real: Hash256,
    },
    /// The update states another depth of the old tree at level 0 than its root has.
    #[error("an old depth of {stated} in place of {real}")]
    OldDepth {
        stated: u16,
        real: u16,
    },
    /// The face beside a wanted hash doesn't agree with the cell that the old half shows: the first such cell in
    /// preorder. Where no face was given the shown one stands in both places.
    #[error("the old half shows another cell")]
    OldHalf {
        hash: Hash256,
        stored: Face,
        shown: Face,
    },
    /// A pruned branch of the new half stands for a cell that the old half didn't meet: the first one in preorder.
    #[error("the new half hides an unknown cell")]
    Foreign {
        hash: Hash256,
    },
    /// Two different new cells have this hash; it is the least such hash.
    #[error("two new cells of one hash")]
    NewClash {
        hash: Hash256,
    },
    /// The joined tree of two states would have this depth, which is over the greatest one that a cell has, 1024.
    #[error("two states that join to a depth of {depth}")]
    SplitDeep {
        depth: u32,
    },
    /// Memory ran out.
    #[error("out of memory")]
    Memory,
}

impl From<AllocError> for PrepareFault {
    ghost use Rattle.std.specs.Prelude.{◌≡◌};
    ghost use Rattle.cd_prepare.specs.declared.prepare_fault.PrepareFault.TheVariants.{Memory};

    ghost from_gives = { λ _ e. e ≡ Memory };

    fn from(_error: AllocError) -> PrepareFault {
        PrepareFault::Memory
    }
}

impl<T: Drop> From<AllocFailed<T>> for PrepareFault {
    ghost use Rattle.std.specs.Prelude.{◌≡◌};
    ghost use Rattle.cd_prepare.specs.declared.prepare_fault.PrepareFault.TheVariants.{Memory};

    ghost from_gives = { λ _ e. e ≡ Memory };

    fn from(_error: AllocFailed<T>) -> PrepareFault {
        PrepareFault::Memory
    }
}

impl From<PairFault> for PrepareFault {
    ghost use Rattle.std.specs.Prelude.{◌≡◌};
    ghost use Rattle.cd_prepare.specs.UpdateFaults.{of_pair};

    ghost from_gives = { λ pair fault. fault ≡ of_pair pair };

    fn from(fault: PairFault) -> PrepareFault {
        match fault {
            PairFault::OldHash { stated, real } => PrepareFault::OldHash { stated, real },
            PairFault::OldDepth { stated, real } => PrepareFault::OldDepth { stated, real },
            PairFault::OldHalf {
                hash,
                stored,
                shown,
            } => PrepareFault::OldHalf {
                hash,
                stored,
                shown,
            },
            PairFault::Memory => PrepareFault::Memory,
        }
    }
}

impl From<GraftFault> for PrepareFault {
    ghost use Rattle.std.specs.Prelude.{◌≡◌};
    ghost use Rattle.cd_prepare.specs.UpdateFaults.{of_graft};

    ghost from_gives = { λ graft fault. fault ≡ of_graft graft };

    fn from(fault: GraftFault) -> PrepareFault {
        match fault {
            GraftFault::Foreign { hash } => PrepareFault::Foreign { hash },
            GraftFault::Memory => PrepareFault::Memory,
        }
    }
}
