//! Blocks that go as a pin ends.
ghost use Rattle.std.specs.Prelude.{◌≡◌, ◌≤◌, ◌<◌, ◌+◌, ◌*◌, ◌∷◌, [], ℕ, List, length, map, filter, slice_get, not, ◌&&◌, false, true, IfSome, Some, None, IfOk, OnOk, OnErr};
ghost use Rattle.cd_block.specs.declared.description.Descr.{Descr};
ghost use Rattle.cd_cell.specs.Tree.{Tree};
ghost use Rattle.cd_keeper.specs.Keeping.{KeepsHeld, IsApplied};
ghost use Rattle.cd_keeper.specs.Contents.{Change};
ghost use Rattle.cd_world.specs.Standing.{is_pin, names_block};
ghost use Rattle.std.specs.List.{list_any};
ghost use Rattle.cd_world.specs.Changes.{goes_with, is_collected};
ghost use Rattle.cd_world.specs.Told.{ToldWorld, block_of, shown};
ghost use Rattle.cd_world.specs.World.{Block};
ghost use Rattle.cd_world.specs.World as trees;
ghost use Rattle.cd_count.specs.Changes.{AreDeadCells, AreTogether, AreCounted, rep_bytes};
ghost use Rattle.cd_count.specs.PlanRows.{AreOfBytes};
ghost use Rattle.cd_event.specs.Turning.{RisesOnly};
ghost use Rattle.cd_core.specs.Cores.{IsWritable, Holds};
ghost use Rattle.cd_core.specs.Steps.{Batches, told_without, is_keeper_fault, IsOutsideFault, IsDropOf, of_count};
ghost use Rattle.cd_block.specs.Block.{IsBlockId, key_of};
ghost use Rattle.cd_count.specs.Changes.{IsCellBatch};

use cd_base::{Hash256, Memory};
use cd_block::{BlockId, Descr};
use cd_cell::Hash32;
use cd_count::{CountFault, Plan, plan_drop};
use cd_event::UnpinFault;
use cd_keeper::{Batch, KeepFault, Keeper};
use cd_world::{PinRow, World, is_same_id};
use std::alloc::Global;

/// Whether a pin but this one is on its block.
fn is_shared(world: &World, row: &PinRow) -> bool
    ensures { result ≡ list_any (λ r. not (is_pin row.now.worker row.now.pin r)
        && names_block row.now.block r) world.now.pins }
{
    world
        .pins
        .as_slice()
        .iter()
        .any(|other| shares_block(row, other))
}

/// Whether another pin is on the block of this one.
fn shares_block(row: &PinRow, other: &PinRow) -> bool
    ensures { result ≡ not (is_pin row.now.worker row.now.pin other.now)
        && names_block row.now.block other.now }
{
    !(other.pin == row.pin && other.worker == row.worker) && is_same_id(&other.block, &row.block)
}

/// The place of the block that goes with the end of this pin.
pub(crate) fn collected_place(world: &World, row: &PinRow) -> Option<usize>
    ensures some { IfSome result (λ place. (d : Descr) × (slice_get world.now.blocks place ≡ Some d)
        × (goes_with world.now row.now d ≡ true)) }
    ensures none { result ≡ None → is_collected world.now row.now ≡ false }
{
    if is_shared(world, row) {
        return None;
    }
    let blocks = world.blocks.as_slice();
    for place in 0..blocks.len() {
        let block = &blocks[place];
        if is_same_id(&block.id, &row.block) && block.leaving {
            return Some(place);
        }
    }
    None
}

/// Drops the block in this place, which goes with the end of a pin, from the keeper, in one batch.
pub(crate) fn drop_block<K: Keeper, H: Hash32>(
    alloc: Global,
    keeper: &mut K,
    world: &World,
    row: &PinRow,
    place: usize,
) -> Result<(), UnpinFault>
    requires goes { (d : Descr) × (slice_get world.now.blocks place ≡ Some d)
        × (goes_with world.now row.now d ≡ true) }
    requires kept { IsWritable world.now }
    ensures done { OnOk result (Batches K.held H.digest_of K.trail K.batches world.now (told_without row.now)
        keeper.old keeper.new) }
    ensures undone { OnErr result (KeepsHeld K.held K.trail K.batches keeper.old keeper.new) }
    ensures cause { RisesOnly (is_keeper_fault result) (K.faults keeper.old) (K.faults keeper.new) }
    ensures outside { IsOutsideFault result }
    ensures reads { (t : ToldWorld) (dead : List Tree) → t.world ≡ world.now
        → Holds K.held H.digest_of t keeper.old
        → (let all = shown t in AreDeadCells H.digest_of all.blocks
        (map (block_of t) (filter (goes_with t.world row.now) t.world.blocks)) dead)
        → K.reads keeper.new ≤ K.reads keeper.old + (4 * length dead + 1) }
{
    let block = &world.blocks.as_slice()[place];
    let plan = plan_without::<K, H>(alloc, keeper, &block.root)?;
    apply_without(alloc, keeper, plan, block.id)
}

/// Makes the batch of a plan that drops one description.
fn apply_without<K: Keeper>(
    alloc: Global,
    keeper: &mut K,
    plan: Plan,
    id: BlockId,
) -> Result<(), UnpinFault>
    requires { IsBlockId id }
    ensures done { OnOk result ((change : Change) × IsDropOf plan.entry id change
        × IsApplied K.held K.trail K.batches change keeper.old keeper.new) }
    ensures undone { OnErr result (KeepsHeld K.held K.trail K.batches keeper.old keeper.new) }
    ensures cause { RisesOnly (is_keeper_fault result) (K.faults keeper.old) (K.faults keeper.new) }
    ensures outside { IsOutsideFault result }
    ensures reads { K.reads keeper.new ≡ K.reads keeper.old }
{
    let Ok(batch) = batch_without(alloc, plan, id) else {
        return Err(UnpinFault::Memory);
    };
    match keeper.apply(&batch) {
        Ok(()) => Ok(()),
        Err(KeepFault::Failed) => Err(UnpinFault::Keeper),
        Err(KeepFault::Memory) => Err(UnpinFault::Memory),
    }
}

/// The plan by which one block with this root goes.
fn plan_without<K: Keeper, H: Hash32>(
    alloc: Global,
    keeper: &mut K,
    root: &Hash256,
) -> Result<Plan<'static>, UnpinFault>
    ensures dropped { IfOk result (λ plan. (t : ToldWorld) (left : trees.World) (block : Block)
        → Holds K.held H.digest_of t keeper.old
        → (let all = shown t in AreTogether H.digest_of left.blocks (block ∷ []) all.blocks)
        → rep_bytes H.digest_of block.state ≡ root.now.0
        → (dead : List Tree)
        × AreCounted H.digest_of (shown t) (shown t) left [] (block ∷ []) [] dead plan) }
    ensures keeps { KeepsHeld K.held K.trail K.batches keeper.old keeper.new }
    ensures cause { RisesOnly (is_keeper_fault result) (K.faults keeper.old) (K.faults keeper.new) }
    ensures outside { IsOutsideFault result }
    ensures reads { (t : ToldWorld) (left : trees.World) (block : Block) (dead : List Tree)
        → Holds K.held H.digest_of t keeper.old
        → (let all = shown t in AreTogether H.digest_of left.blocks (block ∷ []) all.blocks)
        → rep_bytes H.digest_of block.state ≡ root.now.0
        → (let all = shown t in AreDeadCells H.digest_of all.blocks (block ∷ []) dead)
        → K.reads keeper.new ≤ K.reads keeper.old + (4 * length dead + 1) }
{
    let roots = [*root];
    match plan_drop(alloc, keeper, Plan::empty(alloc), &roots) {
        Ok(plan) => Ok(plan),
        Err(fault) => Err(unpin_fault(&fault)),
    }
}

fn unpin_fault(fault: &CountFault) -> UnpinFault
    ensures { result ≡ of_count fault.now }
{
    match fault {
        CountFault::Keeper => UnpinFault::Keeper,
        _ => UnpinFault::Memory,
    }
}

/// The batch of a plan that drops one description.
fn batch_without(alloc: Global, plan: Plan, id: BlockId) -> Result<Batch, Memory>
    requires { IsBlockId id }
    ensures { IfOk result (IsDropOf plan.entry id) }
{
    let mut ids = Vec::new(alloc);
    ids.push(id)?;
    plan.into_batch(alloc, Vec::new(alloc), ids)
}
