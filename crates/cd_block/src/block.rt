ghost use Rattle.std.specs.Prelude.{◌≡◌};
ghost use Rattle.cd_block.specs.Block.{key_of, id_of, IsBlockId};

use crate::shard::ShardId;
use cd_base::Hash256;

/// The full name of a block: its shard, its number in the shard's chain, the hash of its state's root cell,
/// and the hash of its file.
///
/// Ids are ordered by the 80 bytes of their keys.
#[derive(Clone, Copy, Debug, PartialEq, Eq, PartialOrd, Ord, Hash)]
pub struct BlockId {
    pub shard_id: ShardId,
    pub seqno: u32,
    pub root: Hash256,
    pub file: Hash256,
}

impl BlockId {
    /// Tells a caller's proof that the numbers of an id lie in their types, and does nothing.
    pub fn known(self)
        ensures { IsBlockId self }
    {}

    /// The block's key: workchain in two's complement (4 bytes), shard (8), seqno (4), root hash, file hash.
    #[tactic(auto, unfolding(crate::specs::Block::key_of, crate::specs::Block::shard_key))]
    pub fn to_key(&self) -> [u8; 80]
        ensures { result ≡ key_of self.now }
    {
        let mut key = [0; 80];
        key[..4].copy_from_slice(&self.shard_id.workchain.to_be_bytes());
        key[4..12].copy_from_slice(&self.shard_id.shard.to_be_bytes());
        key[12..16].copy_from_slice(&self.seqno.to_be_bytes());
        key[16..48].copy_from_slice(&self.root.0);
        key[48..].copy_from_slice(&self.file.0);
        key
    }

    /// The block whose key these bytes are.
    #[tactic(auto, unfolding(crate::specs::Block::id_of))]
    pub fn from_key(key: &[u8; 80]) -> BlockId
        ensures value { result ≡ id_of key.now }
        ensures key { key_of result ≡ key.now }
        ensures known { IsBlockId result }
    {
        BlockId {
            shard_id: ShardId {
                workchain: i32::from_be_bytes(key[..4].try_into().unwrap()),
                shard: u64::from_be_bytes(key[4..12].try_into().unwrap()),
            },
            seqno: u32::from_be_bytes(key[12..16].try_into().unwrap()),
            root: Hash256(key[16..48].try_into().unwrap()),
            file: Hash256(key[48..].try_into().unwrap()),
        }
    }
}
