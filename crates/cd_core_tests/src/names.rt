//! Blocks and hashes by small numbers.

use cd_base::Hash256;
use cd_block::{BlockId, ShardId};
use cd_event::Who;

/// The masterchain, or a workchain's whole shard or a half of it.
#[derive(Clone, Copy)]
pub(crate) enum Shard {
    Master,
    Whole,
    Left,
    Right,
}

/// A block's name: its shard, its seqno, and the last bytes of its root's hash and of its file's.
#[derive(Clone, Copy)]
pub(crate) struct Name(
    pub(crate) Shard,
    pub(crate) u32,
    pub(crate) u8,
    pub(crate) u8,
);

impl Shard {
    fn id(self) -> ShardId {
        let (workchain, shard) = match self {
            Shard::Master => (-1, 1 << 63),
            Shard::Whole => (0, 1 << 63),
            Shard::Left => (0, 1 << 62),
            Shard::Right => (0, 3 << 62),
        };
        ShardId { workchain, shard }
    }
}

impl Name {
    pub(crate) fn id(self) -> BlockId {
        BlockId {
            shard_id: self.0.id(),
            seqno: self.1,
            root: weak(self.2),
            file: weak(self.3),
        }
    }
}

/// The weak hash of one byte.
pub(crate) fn weak(byte: u8) -> Hash256 {
    let mut hash = Hash256([0; 32]);
    hash.0[31] = byte;
    hash
}

/// A worker in its first task.
pub(crate) fn who(worker: u16) -> Who {
    Who {
        phase: 0,
        worker,
        task: 0,
    }
}
