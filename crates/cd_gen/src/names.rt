ghost use Rattle.std.specs.Prelude.{◌≡◌, ◌≤◌, replicate, ◌++◌, ◌∷◌};
ghost use Rattle.std.specs.Int.{w32, w64, to_be_bytes};
ghost use Rattle.cd_gen.specs.States.{zero_root};
ghost use Rattle.cd_gen.specs.Generated as spec;

use cd_base::Hash256;
use cd_block::{BlockId, ShardId};

/// The names of the blocks of a feed: the feed's number, and the root hashes of the zero states.
#[derive(Drop)]
pub struct Names {
    pub number: u64,
    pub master: Hash256,
    pub left: Hash256,
    pub right: Hash256,
    pub ghost master_root: { master ≡ zero_root number 0 },
    pub ghost left_root: { left ≡ zero_root number 1 },
    pub ghost right_root: { right ≡ zero_root number 2 },
}

/// The shard of a chain: the masterchain, and both halves of workchain 0.
fn shard_of(chain: u8) -> ShardId
    ensures { result ≡ spec.shard_of chain }
{
    match chain {
        0 => ShardId {
            workchain: -1,
            shard: 0x8000_0000_0000_0000,
        },
        1 => ShardId {
            workchain: 0,
            shard: 0x4000_0000_0000_0000,
        },
        _ => ShardId {
            workchain: 0,
            shard: 0xc000_0000_0000_0000,
        },
    }
}

/// 24 zero bytes and the feed's number.
fn file_of(number: u64) -> Hash256
    ensures { result ≡ record { 0 = replicate 24 0 ++ to_be_bytes w64 number } }
{
    let mut bytes = [0; 32];
    bytes[24..].copy_from_slice(&number.to_be_bytes());
    Hash256(bytes)
}

/// The root hash of a block that is no zero state: 27 zero bytes, the chain, and the seqno.
fn root_of(chain: u8, seqno: u32) -> Hash256
    ensures { result ≡ record { 0 = replicate 27 0 ++ chain ∷ to_be_bytes w32 seqno } }
{
    let mut bytes = [0; 32];
    bytes[27] = chain;
    bytes[28..].copy_from_slice(&seqno.to_be_bytes());
    Hash256(bytes)
}

impl Names {
    /// The name of the block of this seqno; 0 is that of the zero state.
    #[tactic(auto, unfolding(crate::specs::Generated::block_id))]
    pub fn block(&self, chain: u8, seqno: u32) -> BlockId
        requires { chain ≤ 2 }
        ensures { result ≡ spec.block_id self.now.number chain seqno }
    {
        BlockId {
            shard_id: shard_of(chain),
            seqno,
            root: self.root(chain, seqno),
            file: file_of(self.number),
        }
    }

    fn root(&self, chain: u8, seqno: u32) -> Hash256
        requires { chain ≤ 2 }
        ensures { result ≡ spec.root_of self.now.number chain seqno }
    {
        if seqno == 0 {
            return self.zero_root(chain);
        }
        root_of(chain, seqno)
    }

    fn zero_root(&self, chain: u8) -> Hash256
        requires { chain ≤ 2 }
        ensures { result ≡ zero_root self.now.number chain }
    {
        match chain {
            0 => self.master,
            1 => self.left,
            _ => self.right,
        }
    }
}
