use cd_base::Hash256;
use cd_block::BlockId;

/// A command with its values.
#[derive(Debug, Drop, PartialEq, Eq)]
pub enum Command {
    /// Stores the bag of standard input as the state of a zero block.
    Zero {
        workchain: i32,
        file: Hash256,
        db: Option<String>,
    },
    /// Does the tasks of the feed of standard input, one after another.
    Replay {
        db: Option<String>,
        to: Vec<String>,
    },
    /// Does the tasks of the feed of standard input, on a thread for each worker.
    Run {
        db: Option<String>,
        to: Vec<String>,
    },
    /// Reads the whole store.
    Check {
        db: Option<String>,
    },
    /// Writes a state to files, in slices of at most `max` bytes.
    Export {
        id: BlockId,
        max: u32,
        db: Option<String>,
        to: Vec<String>,
    },
    /// Writes the feed of this number.
    Gen {
        number: u64,
    },
    /// Rewrites records of the first version.
    Migrate {
        db: Option<String>,
    },
}
