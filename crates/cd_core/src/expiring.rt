//! Blocks expire.
ghost use Rattle.std.specs.Prelude.{◌≡◌, ◌≤◌, ◌+◌, ◌*◌, ◌^◌, ◌<◌, ◌++◌, ◌∷◌, ℕ, [], List, length, false, true, map, IfOk, IfErr, OnOk, OnErr, IfSome, Some, None};
ghost use Rattle.std.specs.Option.{option_copied};
ghost use Rattle.cd_record.specs.declared.limits.TheConstants.{GREATEST_COUNT};
ghost use Rattle.cd_event.specs.declared.event.Event.TheVariants.{Expire};
ghost use Rattle.cd_event.specs.Replies.{expire_reply};
ghost use Rattle.cd_event.specs.Turning.{is_keeper, RisesOnly};
ghost use Rattle.cd_keeper.specs.Keeping.{KeepsHeld, HasKeepCause};
ghost use Rattle.cd_world.specs.Standing.{kept_at, expired};
ghost use Rattle.cd_block.specs.declared.description.Descr.{Descr};
ghost use Rattle.cd_world.specs.Machine.{unexpirable, first_missing};
ghost use Rattle.cd_cell.specs.Tree.{Tree};
ghost use Rattle.cd_world.specs.Told.{ToldWorld, shown, told_replay};
ghost use Rattle.cd_keeper.specs.Shown.{hash_bytes};
ghost use Rattle.cd_world.specs.World as trees;
ghost use Rattle.cd_world.specs.World.{Block};
ghost use Rattle.cd_count.specs.Changes.{states, rep_bytes, AreTogether, AreCounted, AreDeadCells};
ghost use Rattle.cd_core.specs.Cores.{IsWritable, Holds, told_start};
ghost use Rattle.cd_core.specs.Effects.{Adds, AreExpired, dropped_by};
ghost use Rattle.cd_core.specs.Steps.{Did, Batches};
ghost use Rattle.cd_core.specs.Passing.{IsUnexpirable, ArePassed, keep_of, told_passed};

use crate::body::{Core, make_room, note};
use crate::placing::copy_descr;
use crate::replying::expire_reply;
use cd_base::{Hash256, Memory};
use cd_block::{BlockId, Descr};
use cd_cell::Hash32;
use cd_count::{CountFault, Plan, plan_drop};
use cd_event::{Event, ExpireFault, Who};
use cd_keeper::{KeepFault, Keeper};
use cd_world::{World, find_kept, is_expired, is_pinned};
use std::alloc::Global;

impl<K: Keeper, H: Hash32> Core<K, H> {
    /// Drops the blocks that a masterchain block and its shard tops have passed, in one batch, but for pinned
    /// ones, which are leaving from then on. The answer is the number of both; where it is 0 no batch is made.
    /// Reads at most 4 records for each cell that goes, and one for each block that does.
    pub fn expire(&mut self, who: Who, id: BlockId) -> Result<u64, ExpireFault>
        ensures start { self.new.start ≡ self.old.start }
        ensures adds { Adds K.held H.digest_of self.old.start self.old.journal who (Expire id)
            (expire_reply result) self.new.journal }
        ensures cause { RisesOnly (is_keeper (expire_reply result))
            (K.faults self.old.keeper) (K.faults self.new.keeper) }
        ensures reads { IfSome (told_start K.held self.old.start) (λ t. (dead : List Tree)
            → let now = told_replay H.digest_of t self.old.journal in AreExpired H.digest_of now id dead
            → K.reads self.new.keeper ≤ K.reads self.old.keeper
            + (4 * length dead + length (dropped_by H.digest_of now (kept_at now.world id)))) }
    {
        let Ok(()) = make_room(&mut self.journal, who) else {
            return Err(ExpireFault::Memory);
        };
        let answer = expire_by::<K, H>(self.alloc, &mut self.keeper, &mut self.world, who, &id);
        let reply = expire_reply(&answer);
        note(&mut self.journal, who, Event::Expire { id }, reply);
        answer
    }
}

/// The blocks that a masterchain block has passed: the roots and the ids of those that go, and those with a pin
/// as they are from then on.
#[derive(Drop)]
struct Passed {
    roots: Vec<Hash256>,
    gone: Vec<BlockId>,
    leaving: Vec<Descr>,
}

/// Drops and marks what a masterchain block and its tops have passed.
fn expire_by<K: Keeper, H: Hash32>(
    alloc: Global,
    keeper: &mut K,
    world: &mut World,
    who: Who,
    id: &BlockId,
) -> Result<u64, ExpireFault>
    requires kept { IsWritable world.old }
    ensures did { (limit : ℕ) → limit ≤ GREATEST_COUNT
        → Did K.held H.digest_of K.trail {X = H} K.batches K.faults limit world.old keeper.old who
        (Expire id.now) (expire_reply result) world.new keeper.new }
    ensures reads { (t : ToldWorld) (dead : List Tree)
        → t.world ≡ world.old → Holds K.held H.digest_of t keeper.old
        → AreExpired H.digest_of t id.now dead
        → K.reads keeper.new ≤ K.reads keeper.old
        + (4 * length dead + length (dropped_by H.digest_of t (kept_at t.world id.now))) }
{
    let master = match master_at(alloc, world, id) {
        Ok(master) => master,
        Err(fault) => return Err(fault),
    };
    let Ok(passed) = list_passed(alloc, world, &master) else {
        return Err(ExpireFault::Memory);
    };
    let count = passed.roots.len() as u64 + passed.leaving.len() as u64;
    if count == 0 {
        return Ok(0);
    }
    match drop_passed::<K, H>(alloc, keeper, world, &master, passed) {
        Ok(()) => {
            world.blocks.expire(&master, world.pins.as_slice());
            Ok(count)
        }
        Err(KeepFault::Failed) => Err(ExpireFault::Keeper),
        Err(KeepFault::Memory) => Err(ExpireFault::Memory),
    }
}

/// The masterchain block with this id, of which each shard top is kept.
fn master_at(alloc: Global, world: &World, id: &BlockId) -> Result<Descr, ExpireFault>
    ensures found { IfOk result (λ m. (kept_at world.now id.now ≡ Some m)
        × (unexpirable world.now (kept_at world.now id.now) ≡ None)) }
    ensures refused { IfErr result (IsUnexpirable (unexpirable world.now (kept_at world.now id.now))) }
{
    let Some(master) = find_kept(world, id) else {
        return Err(ExpireFault::UnknownBlock);
    };
    if !master.id.shard_id.is_master() {
        return Err(ExpireFault::NotMaster);
    }
    if let Some(top) = missing_top(world, master.tops.as_slice()) {
        return Err(ExpireFault::TopMissing { top: *top });
    }
    match copy_descr(alloc, master) {
        Ok(master) => Ok(master),
        Err(Memory) => Err(ExpireFault::Memory),
    }
}

/// The first of some shard tops that is no kept block.
fn missing_top<'a>(world: &World, tops: &'a [BlockId]) -> Option<&'a BlockId>
    ensures { option_copied result ≡ first_missing world.now tops.now }
{
    tops.iter().find(|top| find_kept(world, top).is_none())
}

/// Lists what a masterchain block and its tops have passed.
fn list_passed(alloc: Global, world: &World, master: &Descr) -> Result<Passed, Memory>
    ensures passed { IfOk result (λ p. ArePassed world.now master.now
        p.roots.items p.gone.items p.leaving.items world.now.blocks) }
    ensures counted { IfOk result (λ p. length p.roots.items + length p.leaving.items
        ≡ length (expired world.now master.now)) }
    ensures few { IfOk result (λ p. length p.roots.items + length p.leaving.items < 2 ^ 64) }
{
    let blocks = world.blocks.as_slice();
    // Tells that there are no more blocks than a number of the program.
    let _ = blocks.len();
    let mut passed = Passed {
        roots: Vec::new(alloc),
        gone: Vec::new(alloc),
        leaving: Vec::new(alloc),
    };
    for block in blocks {
        pass(alloc, &mut passed, world, master, block)?;
    }
    Ok(passed)
}

/// Drops and marks passed blocks in the keeper, in one batch.
fn drop_passed<K: Keeper, H: Hash32>(
    alloc: Global,
    keeper: &mut K,
    world: &World,
    master: &Descr,
    passed: Passed,
) -> Result<(), KeepFault>
    requires kept { IsWritable world.now }
    requires passed { ArePassed world.now master.now
        passed.roots.items passed.gone.items passed.leaving.items world.now.blocks }
    ensures done { OnOk result (Batches K.held H.digest_of K.trail K.batches world.now
        (told_passed master.now) keeper.old keeper.new) }
    ensures undone { OnErr result (KeepsHeld K.held K.trail K.batches keeper.old keeper.new) }
    ensures cause { HasKeepCause (K.faults keeper.old) (K.faults keeper.new) result }
    ensures reads { (t : ToldWorld) (dead : List Tree)
        → t.world ≡ world.now → Holds K.held H.digest_of t keeper.old
        → (let all = shown t in AreDeadCells H.digest_of all.blocks
        (dropped_by H.digest_of t (Some master.now)) dead)
        → K.reads keeper.new ≤ K.reads keeper.old
        + (4 * length dead + length (dropped_by H.digest_of t (Some master.now))) }
{
    let plan = match plan_going::<K, H>(alloc, keeper, passed.roots.as_slice()) {
        Ok(plan) => plan,
        Err(fault) => return Err(fault),
    };
    let Ok(batch) = plan.into_batch(alloc, passed.leaving, passed.gone) else {
        return Err(KeepFault::Memory);
    };
    keeper.apply(&batch)
}

/// The plan by which blocks with these roots go.
fn plan_going<K: Keeper, H: Hash32>(
    alloc: Global,
    keeper: &mut K,
    roots: &[Hash256],
) -> Result<Plan<'static>, KeepFault>
    ensures dropped { IfOk result (λ plan. (t : ToldWorld) (left : trees.World) (gone : List Block)
        → Holds K.held H.digest_of t keeper.old
        → (let all = shown t in AreTogether H.digest_of left.blocks gone all.blocks)
        → map (rep_bytes H.digest_of) (states gone) ≡ map hash_bytes roots.now
        → (dead : List Tree) × AreCounted H.digest_of (shown t) (shown t) left [] gone [] dead plan) }
    ensures reads { (t : ToldWorld) (left : trees.World) (gone : List Block) (dead : List Tree)
        → Holds K.held H.digest_of t keeper.old
        → (let all = shown t in AreTogether H.digest_of left.blocks gone all.blocks)
        → map (rep_bytes H.digest_of) (states gone) ≡ map hash_bytes roots.now
        → (let all = shown t in AreDeadCells H.digest_of all.blocks gone dead)
        → K.reads keeper.new ≤ K.reads keeper.old + (4 * length dead + length roots.now) }
    ensures keeps { KeepsHeld K.held K.trail K.batches keeper.old keeper.new }
    ensures cause { HasKeepCause (K.faults keeper.old) (K.faults keeper.new) result }
{
    match plan_drop(alloc, keeper, Plan::empty(alloc), roots) {
        Ok(plan) => Ok(plan),
        Err(fault) => Err(keep_fault(fault)),
    }
}

/// A plan's fault from outside as the keeper's.
pub(crate) fn keep_fault(fault: CountFault) -> KeepFault
    ensures { result ≡ keep_of fault }
{
    match fault {
        CountFault::Memory => KeepFault::Memory,
        CountFault::Keeper => KeepFault::Failed,
        CountFault::Clash { .. } => KeepFault::Failed,
        CountFault::CountFull { .. } => KeepFault::Failed,
    }
}

/// Adds a block, if it expires.
fn pass(
    alloc: Global,
    passed: &mut Passed,
    world: &World,
    master: &Descr,
    block: &Descr,
) -> Result<(), Memory>
    ensures { (blocks : List Descr) → ArePassed world.now master.now
        passed.old.roots.items passed.old.gone.items passed.old.leaving.items blocks
        → OnOk result (ArePassed world.now master.now
        passed.new.roots.items passed.new.gone.items passed.new.leaving.items (blocks ++ block.now ∷ [])) }
{
    if !is_expired(master, block) {
        return Ok(());
    }
    if !is_pinned(world.pins.as_slice(), &block.id) {
        passed.roots.push(block.root)?;
        passed.gone.push(block.id)?;
        return Ok(());
    }
    let mut left = copy_descr(alloc, block)?;
    left.leaving = true;
    passed.leaving.push(left)?;
    Ok(())
}
