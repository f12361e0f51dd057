ghost use Rattle.std.specs.Prelude.{◌≡◌};
ghost use Rattle.cd_block.specs.Expiry as spec;

use crate::block::BlockId;

/// Whether a block expires by a masterchain block and its shard tops. A masterchain block does where it is older
/// than that block. A shard block does where it meets a top, and is older than every top that it meets.
#[tactic(auto, unfolding(crate::specs::Expiry::expires))]
pub fn expires(id: &BlockId, master: &BlockId, tops: &[BlockId]) -> bool
    ensures { result ≡ spec.expires id.now master.now tops.now }
{
    if id.shard_id.is_master() {
        return id.seqno < master.seqno;
    }
    is_passed(id, tops)
}

/// Whether a block meets a top, and is older than every top that it meets.
fn is_passed(id: &BlockId, tops: &[BlockId]) -> bool
    ensures { result ≡ spec.is_passed id.now tops.now }
{
    let mut meets_one = false;
    for top in tops {
        if id.shard_id.meets(&top.shard_id) {
            if id.seqno >= top.seqno {
                return false;
            }
            meets_one = true;
        }
    }
    meets_one
}
