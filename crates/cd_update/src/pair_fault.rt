use cd_base::{Hash256, Memory as NoMemory};
use cd_cell::Face;
use thiserror::Error;

/// Why an update isn't paired with an old tree.
#[derive(Clone, Copy, Debug, PartialEq, Eq, Error)]
pub enum PairFault {
    /// The update states another hash of the old tree at level 0 than its root has.
    #[error("another old hash")]
    OldHash {
        stated: Hash256,
        real: Hash256,
    },
    /// The update states another depth of the old tree at level 0 than its root has.
    #[error("an old depth of {stated} in place of {real}")]
    OldDepth {
        stated: u16,
        real: u16,
    },
    /// The face beside a wanted hash doesn't agree with the cell that the old half shows: the first such cell
    /// in preorder. Where no face was given the shown one stands in both places.
    #[error("the old half shows another cell")]
    OldHalf {
        hash: Hash256,
        stored: Face,
        shown: Face,
    },
    /// Memory ran out.
    #[error("out of memory")]
    Memory,
}

impl From<NoMemory> for PairFault {
    ghost use Rattle.std.specs.Prelude.{◌≡◌};
    ghost use Rattle.cd_update.specs.declared.pair_fault.PairFault.TheVariants.{Memory};

    ghost from_gives = { λ _ fault. fault ≡ Memory };

    fn from(_error: NoMemory) -> PairFault {
        PairFault::Memory
    }
}
