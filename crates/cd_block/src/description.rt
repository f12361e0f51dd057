use crate::block::BlockId;
use cd_base::{Hash256, Listed};
use std::alloc::{AllocError, AllocFailed};
use thiserror::Error;

/// The names of some blocks, seen as a list.
pub type BlockIds = Listed<BlockId>;

/// What the store keeps of a block beside its state's cells.
#[derive(Debug, Drop)]
pub struct Descr {
    pub id: BlockId,
    /// None for a zero state, one for a block, and two after a merge of two shards.
    pub parents: BlockIds,
    /// The hash of the state's root cell.
    pub root: Hash256,
    /// The depth of the state's tree, 0 to 1024.
    pub depth: u16,
    /// The shard tops of a masterchain block, at most 64.
    pub tops: BlockIds,
    /// The block is expired and waits for the end of its last pin.
    pub leaving: bool,
}

/// Why bytes are no description: the first fault from left to right.
#[derive(Clone, Copy, Debug, PartialEq, Eq, Error)]
pub enum DescrFault {
    /// The first byte isn't 01.
    #[error("the description has another version")]
    Version,
    /// A field passes the end.
    #[error("the description ends early")]
    Cut,
    /// Bytes stand behind the last field.
    #[error("bytes stand behind the description")]
    Extra,
    /// A byte or a number is outside its range, or tops stand on a block that is none of the masterchain.
    #[error("a field of the description is outside its range")]
    Form,
    /// Memory ran out.
    #[error("out of memory")]
    Memory,
}

impl From<AllocError> for DescrFault {
    ghost use Rattle.std.specs.Prelude.{◌≡◌};
    ghost use Rattle.cd_block.specs.declared.description.DescrFault.TheVariants.{Memory};

    ghost from_gives = { λ _ e. e ≡ Memory };

    fn from(_error: AllocError) -> DescrFault {
        DescrFault::Memory
    }
}

impl<T: Drop> From<AllocFailed<T>> for DescrFault {
    ghost use Rattle.std.specs.Prelude.{◌≡◌};
    ghost use Rattle.cd_block.specs.declared.description.DescrFault.TheVariants.{Memory};

    ghost from_gives = { λ _ e. e ≡ Memory };

    fn from(_error: AllocFailed<T>) -> DescrFault {
        DescrFault::Memory
    }
}
