ghost use Rattle.std.specs.Prelude.{◌≡◌, MatchResult};
ghost use Rattle.cd_block.specs.Lineage as spec;
ghost use Rattle.cd_block.specs.Lineage.{lineage_fault};

use crate::block::BlockId;
use crate::shard::ShardId;
use thiserror::Error;

/// Why a block can't have these parents.
#[derive(Clone, Copy, Debug, PartialEq, Eq, Error)]
pub enum LineageFault {
    /// The shard is no valid one, or isn't the one that the parents ask for.
    #[error("the block's shard does not follow from its parents'")]
    Shard,
    /// The seqno isn't the one that follows the parents'.
    #[error("the block's seqno is {stated}, and {due} is due")]
    Seqno { stated: u32, due: u64 },
}

/// Whether a block may have these parents: none for a zero state, whose seqno is 0; one, whose shard the block's shard
/// is or is a half of, and whose seqno is one less; or two after a merge of two shards, the left and the right half of
/// the block's shard in that order, of which the greater seqno is one less.
///
/// The shard is looked at first. More than two parents are refused as `Shard`.
#[tactic(auto, unfolding(crate::specs::Lineage::lineage_fault))]
pub fn lineage(id: &BlockId, parents: &[BlockId]) -> Result<(), LineageFault>
    ensures { MatchResult result
        (λ _. lineage_fault id.now parents.now ≡ None)
        (λ fault. lineage_fault id.now parents.now ≡ Some fault) }
{
    let shard = &id.shard_id;
    match parents {
        [] => answer_by(is_valid_shard(shard), id.seqno, 0),
        [parent] => {
            let fits = is_valid_shard(shard) && stays_or_splits(shard, &parent.shard_id);
            answer_by(fits, id.seqno, u64::from(parent.seqno) + 1)
        }
        [left, right] => {
            let fits = are_halves(&left.shard_id, &right.shard_id, shard);
            answer_by(fits, id.seqno, u64::from(left.seqno.max(right.seqno)) + 1)
        }
        _ => Err(LineageFault::Shard),
    }
}

#[tactic(auto, unfolding(crate::specs::Lineage::fault_by))]
fn answer_by(shard_fits: bool, stated: u32, due: u64) -> Result<(), LineageFault>
    ensures { MatchResult result
        (λ _. spec.fault_by shard_fits stated due ≡ None)
        (λ fault. spec.fault_by shard_fits stated due ≡ Some fault) }
{
    if !shard_fits {
        return Err(LineageFault::Shard);
    }
    if u64::from(stated) != due {
        return Err(LineageFault::Seqno { stated, due });
    }
    Ok(())
}

/// Whether a shard may have blocks: its number has a tag, and the workchain -1 isn't split.
#[tactic(auto, unfolding(crate::specs::Lineage::is_valid_shard))]
fn is_valid_shard(shard: &ShardId) -> bool
    ensures { result ≡ spec.is_valid_shard shard.now }
{
    shard.shard != 0 && (shard.workchain != -1 || shard.is_master())
}

#[tactic(auto, unfolding(crate::specs::Lineage::stays_or_splits))]
fn stays_or_splits(shard: &ShardId, parent: &ShardId) -> bool
    ensures { result ≡ spec.stays_or_splits shard.now parent.now }
{
    shard == parent || shard.is_child_of(parent)
}

/// Whether two shards are the left and the right half of another.
#[tactic(auto, unfolding(crate::specs::Lineage::are_halves))]
fn are_halves(left: &ShardId, right: &ShardId, shard: &ShardId) -> bool
    ensures { result ≡ spec.are_halves left.now right.now shard.now }
{
    left.is_child_of(shard) && right.is_child_of(shard) && left.shard < right.shard
}
