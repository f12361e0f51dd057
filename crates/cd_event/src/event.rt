use cd_block::{BlockId, BlockIds};
use cd_cell::{Hash32, Prepared};

/// What a worker asks of the core: one turn.
#[derive(Drop)]
pub enum Event<H: Hash32> {
    /// Store a zero state, whose cells are all listed. `tops` are the shard tops of a masterchain block.
    Zero {
        id: BlockId,
        tops: BlockIds,
        prepared: Prepared<H>,
    },
    /// Pin a kept block.
    Pin {
        id: BlockId,
    },
    /// Look up cells under a pin; `asked` is the number of hashes.
    Look {
        pin: u64,
        asked: u32,
    },
    /// Store a block over the pinned parent, or over two parents after a merge of two shards, whose right half
    /// `other` pins. The pins end with it.
    Merge {
        pin: u64,
        other: Option<u64>,
        id: BlockId,
        tops: BlockIds,
        prepared: Prepared<H>,
    },
    /// End a pin.
    Unpin {
        pin: u64,
    },
    /// Drop what a masterchain block and its shard tops have passed.
    Expire {
        id: BlockId,
    },
}
