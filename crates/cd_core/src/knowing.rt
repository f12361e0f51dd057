//! What a caller's proof is told of descriptions, at no cost.
ghost use Rattle.std.specs.Prelude.{All};
ghost use Rattle.cd_block.specs.Description.{IsDescr};

use crate::placing::know_all;
use cd_block::{BlockId, Descr};

/// Tells a caller's proof what a description is, and does nothing.
fn know_block(block: &Descr)
    ensures { IsDescr block.now }
{
    block.id.known();
    know_all(block.parents.as_slice());
    know_all(block.tops.as_slice());
    // An id that names the root: so the root's hash is one of the program.
    let named = BlockId {
        shard_id: block.id.shard_id,
        seqno: block.id.seqno,
        root: block.root,
        file: block.id.file,
    };
    named.known();
}

/// Tells a caller's proof what each description is, and does nothing.
pub(crate) fn know_blocks(blocks: &[Descr])
    ensures { All IsDescr blocks.now }
{
    for block in blocks {
        know_block(block);
    }
}
