use cd_base::Hash256;
use cd_block::{BlockId, LineageFault};
use cd_cell::Face;

/// Why the core refused an event. About 1.4 kilobytes, for the two faces of a clash.
#[derive(Clone, Copy, Debug)]
pub enum Refusal {
    /// A block with that id is there, kept or leaving.
    Known,
    /// The block can't have these parents.
    Lineage(LineageFault),
    /// The id names another root than the state has.
    ZeroHash {
        stated: Hash256,
        real: Hash256,
    },
    /// Another cell is held under a listed hash, the least such hash.
    Clash {
        hash: Hash256,
        stored: Face,
        offered: Face,
    },
    /// The least hash whose count would rise over the limit, and that count.
    CountFull {
        hash: Hash256,
        count: u64,
    },
    /// No kept block has the id.
    UnknownBlock,
    /// The worker has 64 live pins.
    PinsFull,
    /// The number isn't that of a live pin of that worker.
    NoPin,
    /// The value was prepared over another state than that of the pinned parents.
    WrongPin,
    /// The block is none of the masterchain.
    NotMaster,
    /// The first of the block's shard tops that is no kept block.
    TopMissing {
        top: BlockId,
    },
    /// The keeper failed.
    Keeper,
}
