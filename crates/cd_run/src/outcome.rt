use cd_base::Hash256;

/// How a task ended: what stands behind its kind in its line of the report.
#[derive(Clone, Copy, Debug, PartialEq, Eq)]
pub enum Outcome {
    /// A zero state was stored: the hash of its root cell, and how many cells it has.
    Zero {
        root: Hash256,
        cells: u64,
    },
    /// A block was stored: the hash of its state's root cell, and how many new cells were listed.
    Block {
        root: Hash256,
        new: u64,
    },
    /// So many blocks went or are leaving.
    Expire {
        gone: u64,
    },
    /// The hash of the cell that was reached.
    Read {
        hash: Hash256,
    },
    /// A state was cut: the length of its export in bytes, the number of slices, and the SHA-256 of all of them.
    Slice {
        bytes: u64,
        slices: u64,
        sha: Hash256,
    },
    /// A state was sent: the length of its export in bytes, and to how many clients it came and didn't.
    Serve {
        bytes: u64,
        done: u64,
        failed: u64,
    },
    /// A block over two parents was stored: as `Block`.
    Merged {
        root: Hash256,
        new: u64,
    },
    /// The task was refused.
    Refused(TaskRefusal),
}

/// Why a task was refused: the words of the report.
#[derive(Clone, Copy, Debug, PartialEq, Eq)]
pub enum TaskRefusal {
    /// The bytes are no bag of cells.
    Bag,
    /// The bag of a zero state hasn't one root.
    Roots,
    /// The root of the bag has a mask other than 0.
    Level,
    /// The bag's root is no Merkle update.
    NotUpdate,
    /// The update states another hash of the old state.
    OldHash,
    /// The update states another depth of the old state.
    OldDepth,
    /// The update shows another cell than the old state has.
    OldHalf,
    /// The update hides a cell that its old half doesn't meet.
    Foreign,
    /// Two new cells of the update have one hash.
    NewClash,
    /// A block of this name is there.
    Known,
    /// The block can't follow its parents.
    Lineage,
    /// The name of a zero state has another root hash.
    ZeroHash,
    /// Another cell is held under a new cell's hash.
    Clash,
    /// A count would rise over its limit.
    CountFull,
    /// No kept block has the name.
    UnknownBlock,
    /// The worker has as many pins as it may have.
    PinsFull,
    /// The block is none of the masterchain.
    NotMaster,
    /// A shard top isn't kept.
    TopMissing,
    /// The path leads to no cell.
    NoChild,
    /// The state has more cells than an export may have.
    TooMany,
    /// The keeper failed.
    Keeper,
    /// The joined state of two parents would be too deep.
    SplitDeep,
}
