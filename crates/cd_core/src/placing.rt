//! A state's block is put into its place in the world and, by a plan, into the keeper.
ghost use Rattle.std.specs.Prelude.{◌≡◌, ◌≤◌, ◌+◌, ◌*◌, ◌++◌, ◌∷◌, [], List, length, map, insert, All, IsSome, None, IfOk, OnOk, OnErr};
ghost use Rattle.std.specs.List.{AllByRecursion, IsDistinct};
ghost use Rattle.cd_block.specs.declared.description.Descr.{Descr};
ghost use Rattle.cd_block.specs.Block.{IsBlockId, key_of};
ghost use Rattle.cd_block.specs.Description.{IsDescrFit};
ghost use Rattle.cd_cell.specs.Tree.{Tree};
ghost use Rattle.cd_cell.specs.Listings.{Fits};
ghost use Rattle.cd_keeper.specs.Keeping.{KeepsHeld, HasKeepCause};
ghost use Rattle.cd_keeper.specs.NoKeyTwice.{same_key};
ghost use Rattle.cd_record.specs.declared.limits.TheConstants.{GREATEST_COUNT};
ghost use Rattle.cd_event.specs.Turning.{MayName, IsStored};
ghost use Rattle.cd_world.specs.Standing.{block_at};
ghost use Rattle.cd_world.specs.Changes.{placed, stored, with_block};
ghost use Rattle.cd_world.specs.Told.{ToldWorld, block_of, shown, storing_refusal, with_stored};
ghost use Rattle.cd_world.specs.Soundness.{IsStorable};
ghost use Rattle.cd_count.specs.Changes.{AreAdded, IsCellBatch};
ghost use Rattle.cd_count.specs.PlanRows.{descr_puts, AreOfBytes};
ghost use Rattle.cd_count.specs.Reading.{HasCountCause};
ghost use Rattle.cd_core.specs.Cores.{Holds};
ghost use Rattle.cd_core.specs.Storing.{IsJudged, IsPlanMade};

use cd_base::Memory;
use cd_block::{BlockId, BlockIds, Descr};
use cd_cell::{Hash32, Prepared};
use cd_count::{CountFault, Plan, plan_add};
use cd_event::Stored;
use cd_keeper::{Batch, KeepFault, Keeper};
use cd_world::World;
use std::alloc::Global;

/// Tells a caller's proof what each id is, and does nothing.
pub(crate) fn know_all(ids: &[BlockId])
    ensures { AllByRecursion IsBlockId ids.now }
{
    for id in ids {
        id.known();
    }
}

/// Tells a caller's proof that a state may be stored, and does nothing.
fn know_storable<H: Hash32>(id: &BlockId, tops: &BlockIds, prepared: &Prepared<H>)
    requires { MayName id.now tops.now }
    ensures { IsStorable H.digest_of id.now tops.now prepared.now }
{
    id.known();
    know_all(tops.as_slice());
    // An id that names the root: so the root's hash is one of the program.
    let named = BlockId {
        shard_id: id.shard_id,
        seqno: id.seqno,
        root: prepared.root().rep(),
        file: id.file,
    };
    named.known();
    let _ = prepared.cells();
}

/// What is answered of a stored state.
pub(crate) fn answer_of<H: Hash32>(prepared: &Prepared<H>) -> Stored
    ensures { IsStored prepared.now result }
{
    Stored {
        root: prepared.root().rep(),
        cells: prepared.cells().len() as u64,
    }
}

/// The description of a state that is to be stored.
pub(crate) fn stored_descr<H: Hash32>(
    alloc: Global,
    id: &BlockId,
    parents: &[BlockId],
    tops: &BlockIds,
    prepared: &Prepared<H>,
) -> Result<Descr, Memory>
    ensures { IfOk result (λ descr. descr ≡ stored id.now parents.now tops.now prepared.now) }
{
    Ok(Descr {
        id: *id,
        parents: copy_ids(alloc, parents)?,
        root: prepared.root().rep(),
        depth: prepared.root().height(),
        tops: copy_ids(alloc, tops.as_slice())?,
        leaving: false,
    })
}

fn copy_ids(alloc: Global, ids: &[BlockId]) -> Result<BlockIds, Memory>
    ensures { IfOk result (λ copy. copy ≡ ids.now) }
{
    Ok(BlockIds::from(Vec::from_slice(alloc, ids)?))
}

/// A copy of a description.
pub(crate) fn copy_descr(alloc: Global, descr: &Descr) -> Result<Descr, Memory>
    ensures { IfOk result (λ copy. copy ≡ descr.now) }
{
    Ok(Descr {
        id: descr.id,
        parents: copy_ids(alloc, descr.parents.as_slice())?,
        root: descr.root,
        depth: descr.depth,
        tops: copy_ids(alloc, descr.tops.as_slice())?,
        leaving: descr.leaving,
    })
}

/// The place of a block in the order of ids.
fn block_place(blocks: &[Descr], id: &BlockId) -> usize
    ensures within { result ≤ length blocks.now }
    ensures place { (d : Descr) → d.id ≡ id.now
        → insert blocks.now result d ≡ placed d blocks.now }
{
    for (place, block) in blocks.iter().enumerate() {
        if id.cmp(&block.id).is_lt() {
            return place;
        }
    }
    blocks.len()
}

/// The plan by which a state's block comes, over the states of some blocks.
pub(crate) fn plan_state<'a, K: Keeper, H: Hash32>(
    alloc: Global,
    keeper: &mut K,
    world: &World,
    id: &BlockId,
    parents: &[BlockId],
    tops: &BlockIds,
    prepared: &'a Prepared<H>,
    limit: u64,
) -> Result<Plan<'a>, CountFault>
    requires limit { limit ≤ GREATEST_COUNT }
    requires tops { MayName id.now tops.now }
    requires free { block_at world.now id.now ≡ None }
    requires parents { All (λ q. IsSome (block_at world.now q)) parents.now }
    ensures storable { IsStorable H.digest_of id.now tops.now prepared.now }
    ensures judged { (t : ToldWorld) → t.world ≡ world.now → Holds K.held H.digest_of t keeper.old
        → Fits H.digest_of prepared.now.root prepared.now.cells (map t.state parents.now)
        → IsJudged (storing_refusal H.digest_of limit t
        (with_stored H.digest_of t id.now parents.now tops.now prepared.now) prepared.now.cells) result }
    ensures planned { IfOk result (λ plan. (t : ToldWorld) → t.world ≡ world.now
        → Holds K.held H.digest_of t keeper.old
        → Fits H.digest_of prepared.now.root prepared.now.cells (map t.state parents.now)
        → let v = with_stored H.digest_of t id.now parents.now tops.now prepared.now in
        (news : List Tree) × AreAdded H.digest_of (shown t) (shown v)
        (block_of v (stored id.now parents.now tops.now prepared.now) ∷ []) news plan) }
    ensures keeps { KeepsHeld K.held K.trail K.batches keeper.old keeper.new }
    ensures reads { K.reads keeper.new ≤ K.reads keeper.old + (5 * length prepared.now.cells + 1) }
    ensures cause { HasCountCause (K.faults keeper.old) (K.faults keeper.new) result }
{
    know_storable(id, tops, prepared);
    plan_add(alloc, keeper, prepared, limit)
}

/// Puts a block into the world and, by a plan that has its references, into the keeper, from which these
/// blocks go. Each growth comes before the batch.
pub(crate) fn store_block<K: Keeper>(
    alloc: Global,
    keeper: &mut K,
    world: &mut World,
    plan: Plan,
    descr: Descr,
    gone: Vec<BlockId>,
) -> Result<(), KeepFault>
    requires fit { IsDescrFit descr }
    requires once { IsDistinct same_key (map key_of gone.items ++ key_of descr.id ∷ []) }
    ensures world { OnOk result (world.new ≡ with_block world.old descr) }
    ensures made { OnOk result (IsPlanMade K.held K.trail K.batches
        plan.entry descr gone.items keeper.old keeper.new) }
    ensures still { OnErr result (world.new ≡ world.old) }
    ensures undone { OnErr result (KeepsHeld K.held K.trail K.batches keeper.old keeper.new) }
    ensures cause { HasKeepCause (K.faults keeper.old) (K.faults keeper.new) result }
    ensures reads { K.reads keeper.new ≡ K.reads keeper.old }
{
    let Ok(batch) = batch_with(alloc, plan, &descr, gone) else {
        return Err(KeepFault::Memory);
    };
    let place = block_place(world.blocks.as_slice(), &descr.id);
    if world.blocks.insert(place, descr).is_err() {
        return Err(KeepFault::Memory);
    }
    match keeper.apply(&batch) {
        Ok(()) => Ok(()),
        Err(fault) => {
            world.blocks.remove(place);
            Err(fault)
        }
    }
}

/// The batch of a plan that puts one description and drops some.
fn batch_with(alloc: Global, plan: Plan, descr: &Descr, gone: Vec<BlockId>) -> Result<Batch, Memory>
    requires fit { IsDescrFit descr.now }
    requires once { IsDistinct same_key (map key_of gone.items ++ key_of descr.now.id ∷ []) }
    ensures cells { IfOk result (λ batch. IsCellBatch plan.entry batch) }
    ensures puts { IfOk result (λ batch. batch.put_descs ≡ descr_puts (descr.now ∷ [])) }
    ensures drops { IfOk result (λ batch. batch.drop_descs ≡ map key_of gone.items) }
    ensures bytes { IfOk result (λ batch. AreOfBytes batch.put_cells) }
{
    let mut puts = Vec::new(alloc);
    puts.push(copy_descr(alloc, descr)?)?;
    plan.into_batch(alloc, puts, gone)
}
