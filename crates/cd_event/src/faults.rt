use cd_base::Hash256;
use cd_block::{BlockId, LineageFault};
use cd_cell::Face;
use thiserror::Error;

/// Why a zero state isn't stored. Of several refusals the first in this order is given.
#[derive(Clone, Copy, Debug, Error)]
pub enum ZeroFault {
    /// A block with that id is there, kept or leaving.
    #[error("a block of this name is there")]
    Known,
    /// The shard is no valid one, or the seqno isn't 0.
    #[error("the block can't be a zero state: {0}")]
    Lineage(LineageFault),
    /// The id names another root than the state has.
    #[error("the block is named by the root {stated}, and its state has the root {real}")]
    ZeroHash {
        stated: Hash256,
        real: Hash256,
    },
    /// Another cell is held under a listed hash, the least such hash.
    #[error("another cell is held under {hash}")]
    Clash {
        hash: Hash256,
        stored: Face,
        offered: Face,
    },
    /// The least hash whose count would rise over the limit, and that count.
    #[error("the cell {hash} would be referred to {count} times")]
    CountFull {
        hash: Hash256,
        count: u64,
    },
    /// The keeper failed.
    #[error("the keeper failed")]
    Keeper,
    /// Memory ran out.
    #[error("out of memory")]
    Memory,
}

/// Why a block isn't pinned. Of several refusals the first in this order is given.
#[derive(Clone, Copy, Debug, PartialEq, Eq, Error)]
pub enum PinFault {
    /// No kept block has the id. A leaving one doesn't count.
    #[error("no block of this name is kept")]
    UnknownBlock,
    /// The worker has 64 live pins.
    #[error("the worker has as many pins as it may have")]
    PinsFull,
    /// Memory ran out.
    #[error("out of memory")]
    Memory,
}

/// Why cells aren't looked up. Of several refusals the first in this order is given.
#[derive(Clone, Copy, Debug, PartialEq, Eq, Error)]
pub enum LookFault {
    /// The number isn't that of a live pin of the worker.
    #[error("the worker has no such pin")]
    NoPin,
    /// The keeper failed.
    #[error("the keeper failed")]
    Keeper,
    /// Memory ran out.
    #[error("out of memory")]
    Memory,
}

/// Why a block isn't stored over its pinned parents. Of several refusals the first in this order is given, and
/// the pins stay live.
#[derive(Clone, Copy, Debug, Error)]
pub enum MergeFault {
    /// A number isn't that of a live pin of the worker, or both are one number.
    #[error("the worker has no such pin")]
    NoPin,
    /// The value was prepared over another state than that of the pinned parents.
    #[error("the value was prepared over another state")]
    WrongPin,
    /// A block with that id is there, kept or leaving.
    #[error("a block of this name is there")]
    Known,
    /// The block can't have the pinned blocks as parents.
    #[error("the block can't follow its parents: {0}")]
    Lineage(LineageFault),
    /// Another cell is held under a listed hash, the least such hash.
    #[error("another cell is held under {hash}")]
    Clash {
        hash: Hash256,
        stored: Face,
        offered: Face,
    },
    /// The least hash whose count would rise over the limit, and that count.
    #[error("the cell {hash} would be referred to {count} times")]
    CountFull {
        hash: Hash256,
        count: u64,
    },
    /// The keeper failed.
    #[error("the keeper failed")]
    Keeper,
    /// Memory ran out.
    #[error("out of memory")]
    Memory,
}

/// Why a pin isn't ended. Of several refusals the first in this order is given, and the pin stays live.
#[derive(Clone, Copy, Debug, PartialEq, Eq, Error)]
pub enum UnpinFault {
    /// The number isn't that of a live pin of the worker.
    #[error("the worker has no such pin")]
    NoPin,
    /// The keeper failed.
    #[error("the keeper failed")]
    Keeper,
    /// Memory ran out.
    #[error("out of memory")]
    Memory,
}

/// Why no block is expired. Of several refusals the first in this order is given.
#[derive(Clone, Copy, Debug, PartialEq, Eq, Error)]
pub enum ExpireFault {
    /// No kept block has the id. A leaving one doesn't count.
    #[error("no block of this name is kept")]
    UnknownBlock,
    /// The block is none of the masterchain.
    #[error("the block is none of the masterchain")]
    NotMaster,
    /// The first of the block's shard tops that is no kept block.
    #[error("a shard top that the block names isn't kept")]
    TopMissing { top: BlockId },
    /// The keeper failed.
    #[error("the keeper failed")]
    Keeper,
    /// Memory ran out.
    #[error("out of memory")]
    Memory,
}
