ghost use Rattle.std.specs.Prelude.{◌≡◌, IfOk, string_bytes};
ghost use Rattle.cd_zero.specs.Zero.{zero_id, block_text};

use cd_base::{Hash256, Memory};
use cd_block::{BlockId, ShardId, print_id};
use std::alloc::Global;

/// What words say of a zero state's name: the rest is the state's.
#[derive(Clone, Copy, Debug, PartialEq, Eq)]
pub struct ZeroName {
    /// The workchain, of which the block is the whole shard.
    pub workchain: i32,
    /// The hash of the block's file.
    pub file: Hash256,
}

/// The name of the zero state with this root hash.
pub fn id_of(name: ZeroName, root: Hash256) -> BlockId
    ensures { result ≡ zero_id name root }
{
    BlockId {
        shard_id: ShardId {
            workchain: name.workchain,
            shard: 0x8000_0000_0000_0000,
        },
        seqno: 0,
        root,
        file: name.file,
    }
}

/// The block's name and the number of its cells, a line each.
#[tactic(auto, unfolding(crate::specs::Zero::block_text))]
pub fn block_text(alloc: Global, id: &BlockId, cells: usize) -> Result<String, Memory>
    ensures { IfOk result (λ text. string_bytes text ≡ block_text id.now cells) }
{
    let name = print_id(alloc, id)?;
    let mut text = String::from_str(alloc, "id ")?;
    text.push_str(name.as_str())?;
    text.push_str("\ncells ")?;
    text.push_str(cells.to_string(alloc)?.as_str())?;
    text.push_str("\n")?;
    Ok(text)
}
