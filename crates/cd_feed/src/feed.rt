use cd_base::Listed;
use cd_block::{BlockId, BlockIds};

/// Some bytes, seen as a list.
pub type Bytes = Listed<u8>;

/// The tasks of one worker in one phase, in their order.
pub type Tasks = Listed<Task>;

/// The workers of a phase, each by its tasks.
pub type Workers = Listed<Tasks>;

/// Some phases, in their order.
pub type Phases = Listed<Phase>;

/// What workers are to do, phase after phase.
#[derive(Debug, Drop)]
pub struct Feed {
    /// At most 4,096.
    pub phases: Phases,
}

/// A part of a feed: its workers do their tasks side by side, and all end before the next phase begins.
#[derive(Debug, Drop)]
pub struct Phase {
    /// 1 to 16 workers, each of at most 4,096 tasks.
    pub workers: Workers,
}

/// One task of a worker. Tops are at most 64, and only on a block of the masterchain; a bag has at most 67,108,864
/// bytes, and no more is asked of them.
#[derive(Debug, Drop)]
pub enum Task {
    /// Store the state that the bag has as a zero state.
    Zero {
        id: BlockId,
        tops: BlockIds,
        bag: Bytes,
    },
    /// Store a block: the state of its parent with the update that the bag has applied to it.
    Block {
        id: BlockId,
        parent: BlockId,
        tops: BlockIds,
        bag: Bytes,
    },
    /// Drop what this masterchain block and its tops have passed.
    Expire {
        id: BlockId,
    },
    /// Read the cell at the end of a path from the root of a block's state: at most 64 steps, each a place from 0 to 3.
    Read {
        id: BlockId,
        path: Bytes,
    },
    /// Cut the whole export of a block's state into slices of at most `max` bytes, 1 to 2,097,152.
    Slice {
        id: BlockId,
        max: u32,
    },
    /// Send the whole export of a block's state to the clients, in slices of at most `max` bytes, 1 to 2,097,152.
    /// At most one task of a feed is of this kind.
    Serve {
        id: BlockId,
        max: u32,
    },
    /// Store a block that follows the merge of two shards: the update that the bag has is applied to the states of
    /// both parents, joined.
    Merged {
        id: BlockId,
        left: BlockId,
        right: BlockId,
        tops: BlockIds,
        bag: Bytes,
    },
}
