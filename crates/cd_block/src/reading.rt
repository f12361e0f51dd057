ghost use Rattle.std.specs.Prelude.{◌≡◌, IfOk};
ghost use Rattle.cd_block.specs.declared.description.Descr.{Descr};
ghost use Rattle.cd_block.specs.Block.{key_of};
ghost use Rattle.cd_block.specs.Description.{descr_text, IsDescr, IsDescrFit};
ghost use Rattle.cd_block.specs.Reading as spec;
ghost use Rattle.cd_block.specs.Reading.{Gives};
ghost use Rattle.cd_base.specs.Reading.{each_at, Gives as FieldGives};

use crate::block::BlockId;
use crate::description::{BlockIds, Descr, DescrFault};
use crate::shard::ShardId;
use cd_base::{Hash256, chunk_at};
use std::alloc::Global;

#[tactic(auto, unfolding(crate::specs::Reading::version_at))]
fn version_at(bytes: &[u8]) -> Result<&[u8], DescrFault>
    ensures { Gives (λ rest. rest.now) result (spec.version_at bytes.now) }
{
    match bytes {
        [] => Err(DescrFault::Cut),
        [1, rest @ ..] => Ok(rest),
        _ => Err(DescrFault::Version),
    }
}

/// A byte that is at most so much.
#[tactic(auto, unfolding(crate::specs::Reading::small_at))]
fn small_at(most: u8, bytes: &[u8]) -> Result<(u8, &[u8]), DescrFault>
    ensures { Gives (λ x. (x.0, x.1.now)) result (spec.small_at most bytes.now) }
{
    match bytes {
        [] => Err(DescrFault::Cut),
        [byte, rest @ ..] if *byte <= most => Ok((*byte, rest)),
        _ => Err(DescrFault::Form),
    }
}

#[tactic(auto, unfolding(crate::specs::Reading::depth_at))]
fn depth_at(bytes: &[u8]) -> Result<(u16, &[u8]), DescrFault>
    ensures { Gives (λ x. (x.0, x.1.now)) result (spec.depth_at bytes.now) }
{
    let (depth, rest) = chunk_at::<2, _>(DescrFault::Cut, bytes)?;
    let depth = u16::from_be_bytes(*depth);
    if depth > 1024 {
        return Err(DescrFault::Form);
    }
    Ok((depth, rest))
}

/// A key, as the id that it is of.
#[tactic(auto, unfolding(crate::specs::Reading::id_at))]
fn id_at(bytes: &[u8]) -> Result<(BlockId, &[u8]), DescrFault>
    ensures { FieldGives (λ x. (x.0, x.1.now)) result (spec.id_at bytes.now) }
{
    let (key, rest) = chunk_at::<80, _>(DescrFault::Cut, bytes)?;
    Ok((BlockId::from_key(key), rest))
}

fn ids_at(alloc: Global, count: u8, bytes: &[u8]) -> Result<(Vec<BlockId>, &[u8]), DescrFault>
    ensures { Gives (λ x. (x.0.items, x.1.now)) result (each_at spec.id_at count bytes.now) }
{
    let mut ids = Vec::with_capacity(alloc, usize::from(count))?;
    let mut rest = bytes;
    for _ in 0..count {
        let (id, after) = id_at(rest)?;
        ids.push(id)?;
        rest = after;
    }
    Ok((ids, rest))
}

/// How many tops a block of a shard may have.
#[tactic(auto, unfolding(crate::specs::Reading::most_tops))]
fn most_tops(shard: &ShardId) -> u8
    ensures { result ≡ spec.most_tops shard.now }
{
    if shard.is_master() { 64 } else { 0 }
}

#[tactic(auto, unfolding(crate::specs::Reading::descr_in))]
fn descr_in(alloc: Global, key: &[u8; 80], value: &[u8]) -> Result<Descr, DescrFault>
    ensures { Gives (λ descr. descr) result (spec.descr_in key.now value.now) }
{
    let id = BlockId::from_key(key);
    let rest = version_at(value)?;
    let (leaving, rest) = small_at(1, rest)?;
    let (parent_count, rest) = small_at(2, rest)?;
    let (parents, rest) = ids_at(alloc, parent_count, rest)?;
    let (root, rest) = chunk_at::<32, _>(DescrFault::Cut, rest)?;
    let (depth, rest) = depth_at(rest)?;
    let (top_count, rest) = small_at(most_tops(&id.shard_id), rest)?;
    let (tops, rest) = ids_at(alloc, top_count, rest)?;
    if !rest.is_empty() {
        return Err(DescrFault::Extra);
    }
    Ok(Descr {
        id,
        parents: BlockIds::from(parents),
        root: Hash256(*root),
        depth,
        tops: BlockIds::from(tops),
        leaving: leaving == 1,
    })
}

/// Reads what the store has of a block under its key. Takes memory for the lists of parents and tops alone.
pub fn decode_descr(alloc: Global, key: &[u8; 80], value: &[u8]) -> Result<Descr, DescrFault>
    // What is read is spelled so.
    ensures found { IfOk result (λ descr. IsDescr descr × IsDescrFit descr
        × (key.now ≡ key_of descr.id) × (value.now ≡ descr_text descr)) }

    // What is spelled so is read, unless memory runs out.
    ensures only { (descr : Descr) → IsDescr descr → IsDescrFit descr → key.now ≡ key_of descr.id
        → value.now ≡ descr_text descr → Gives (λ d. d) result (Ok descr) }

    // Which fault it is.
    ensures exact { Gives (λ d. d) result (spec.descr_in key.now value.now) }
{
    descr_in(alloc, key, value)
}
