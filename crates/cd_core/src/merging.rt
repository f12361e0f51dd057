//! A block is stored over pinned parents.
ghost use Rattle.std.specs.Prelude.{◌≡◌, ◌≤◌, ◌+◌, ◌*◌, ◌∷◌, ◌++◌, ◌&&◌, not, false, [], List, length, map, IfOk, IfSome, OnOk, OnErr, Some};
ghost use Rattle.std.specs.List.{IsDistinct};
ghost use Rattle.std.specs.Option.{option_map, option_and_then};
ghost use Rattle.cd_block.specs.declared.description.Descr.{Descr};
ghost use Rattle.cd_block.specs.Block.{key_of};
ghost use Rattle.cd_block.specs.Description.{IsDescrFit};
ghost use Rattle.cd_cell.specs.Joined.{joined_face};
ghost use Rattle.cd_cell.specs.Levels.{info_of_face};
ghost use Rattle.cd_cell.specs.Tree.{Tree};
ghost use Rattle.cd_keeper.specs.Keeping.{KeepsHeld, HasKeepCause};
ghost use Rattle.cd_keeper.specs.NoKeyTwice.{same_key};
ghost use Rattle.cd_record.specs.declared.limits.TheConstants.{GREATEST_COUNT};
ghost use Rattle.cd_event.specs.declared.event.Event.TheVariants.{Merge};
ghost use Rattle.cd_event.specs.Replies.{merge_reply};
ghost use Rattle.cd_event.specs.Replies as replies;
ghost use Rattle.cd_event.specs.Turning.{MayName, IsStored, is_keeper, RisesOnly};
ghost use Rattle.cd_world.specs.declared.world.PinRow.{PinRow};
ghost use Rattle.cd_world.specs.Changes.{with_block, without_pin, without_pins};
ghost use Rattle.cd_world.specs.Machine as machine;
ghost use Rattle.cd_world.specs.Machine.{rows_at, merge_rows, blocks_of, old_info, unmergeable};
ghost use Rattle.cd_world.specs.Standing.{block_at, has_id, is_pin};
ghost use Rattle.cd_world.specs.Told.{ToldWorld, told_replay};
ghost use Rattle.cd_count.specs.Changes.{Rows};
ghost use Rattle.cd_core.specs.Cores.{IsWritable, Holds, told_start, world_of};
ghost use Rattle.cd_core.specs.Effects.{Adds, MayStoreOver, AreEnded, ended_by, goes_in_turn, merge_collects};
ghost use Rattle.cd_core.specs.Merging.{AreFitting, AreGoing, IsDropping, IsDropRead, IsOfParents, is_pinned_besides, rows_of_ends};
ghost use Rattle.cd_core.specs.Steps.{Did};
ghost use Rattle.cd_core.specs.Storing.{merge_of, IsPlanMade};

use crate::body::{Core, make_room, note};
use crate::collecting::collected_place;
use crate::expiring::keep_fault;
use crate::pinning::root_of;
use crate::placing::{answer_of, plan_state, store_block, stored_descr};
use crate::replying::merge_reply;
use cd_base::{Hash256, Memory};
use cd_block::{BlockId, BlockIds, Descr, lineage};
use cd_cell::{ChildInfo, GREATEST_DEPTH, Hash32, Prepared, face_info, split_face};
use cd_count::{CountFault, Plan, plan_drop};
use cd_event::{Event, MergeFault, Stored, Who};
use cd_keeper::{KeepFault, Keeper};
use cd_world::{PinRow, World, find_block, is_same_id, pin_row};
use std::alloc::Global;

/// The pins that end with a merge: that of the parent, or those of the left and the right half of the shard.
#[derive(Clone, Copy)]
pub(crate) struct Ends {
    pub(crate) first: PinRow,
    pub(crate) second: Option<PinRow>,
}

impl<K: Keeper, H: Hash32> Core<K, H> {
    /// Stores a block over the state of a pinned parent, or over those of two, the left half of the shard first, in one
    /// batch. The pins end with it, and with them go the blocks that waited for their end alone. After a refusal the
    /// pins are live. Reads at most 5 records for each listed cell and one more; where blocks go, besides at most 4 for
    /// each cell that goes and one for each of these blocks.
    pub fn merge(
        &mut self,
        who: Who,
        pin: u64,
        other: Option<u64>,
        id: BlockId,
        tops: BlockIds,
        prepared: Prepared<H>,
    ) -> Result<Stored, MergeFault>
        requires tops { MayName id tops }
        requires fits { MayStoreOver K.held H.digest_of self.old.start self.old.journal
            who.worker pin other prepared }
        ensures start { self.new.start ≡ self.old.start }
        ensures adds { Adds K.held H.digest_of self.old.start self.old.journal who
            (Merge pin other id tops prepared) (merge_reply result) self.new.journal }
        ensures stored { IfOk result (IsStored prepared) }
        ensures cause { RisesOnly (is_keeper (merge_reply result))
            (K.faults self.old.keeper) (K.faults self.new.keeper) }
        ensures quiet { merge_collects (world_of self.old) who.worker pin other ≡ false
            → K.reads self.new.keeper ≤ K.reads self.old.keeper + (5 * length prepared.cells + 1) }
        ensures reads { IfSome (told_start K.held self.old.start) (λ t. (dead : List Tree)
            → let now = told_replay H.digest_of t self.old.journal in
            let rows = merge_rows now.world who.worker pin other in
            AreEnded H.digest_of now rows id tops prepared dead
            → K.reads self.new.keeper ≤ K.reads self.old.keeper
            + (5 * length prepared.cells + 1 + (4 * length dead + length (ended_by now rows)))) }
    {
        let Ok(()) = make_room(&mut self.journal, who) else {
            return Err(MergeFault::Memory);
        };
        let limit = self.start.limit;
        let answer = merge_over::<K, H>(
            self.alloc,
            &mut self.keeper,
            &mut self.world,
            limit,
            who,
            pin,
            other,
            &id,
            &tops,
            &prepared,
        );
        let reply = merge_reply(&answer);
        let event = Event::Merge {
            pin,
            other,
            id,
            tops,
            prepared,
        };
        note(&mut self.journal, who, event, reply);
        answer
    }
}

/// Stores a block over pinned parents where nothing refuses it.
fn merge_over<K: Keeper, H: Hash32>(
    alloc: Global,
    keeper: &mut K,
    world: &mut World,
    limit: u64,
    who: Who,
    pin: u64,
    other: Option<u64>,
    id: &BlockId,
    tops: &BlockIds,
    prepared: &Prepared<H>,
) -> Result<Stored, MergeFault>
    requires kept { IsWritable world.old }
    requires limit { limit ≤ GREATEST_COUNT }
    requires tops { MayName id.now tops.now }
    requires fits { AreFitting K.held H.digest_of world.old keeper.old who.worker pin other prepared.now }
    ensures did { Did K.held H.digest_of K.trail {X = H} K.batches K.faults limit
        world.old keeper.old who
        (Merge pin other id.now tops.now prepared.now) (merge_reply result) world.new keeper.new }
    ensures stored { IfOk result (IsStored prepared.now) }
    ensures quiet { merge_collects world.old who.worker pin other ≡ false
        → K.reads keeper.new ≤ K.reads keeper.old + (5 * length prepared.now.cells + 1) }
    ensures reads { (t : ToldWorld) (dead : List Tree)
        → t.world ≡ world.old → Holds K.held H.digest_of t keeper.old
        → let rows = merge_rows t.world who.worker pin other in
        AreEnded H.digest_of t rows id.now tops.now prepared.now dead
        → K.reads keeper.new ≤ K.reads keeper.old
        + (5 * length prepared.now.cells + 1 + (4 * length dead + length (ended_by t rows))) }
{
    let Some(ends) = ends_at(world, who.worker, pin, other) else {
        return Err(MergeFault::NoPin);
    };
    let Ok(parents) = parents_of(alloc, &ends) else {
        return Err(MergeFault::Memory);
    };
    if let Some(fault) = merge_refusal(world, &ends, parents.as_slice(), id, prepared) {
        return Err(fault);
    }
    let plan = match plan_state(
        alloc,
        keeper,
        world,
        id,
        parents.as_slice(),
        tops,
        prepared,
        limit,
    ) {
        Ok(plan) => plan,
        Err(fault) => return Err(merge_fault(fault)),
    };
    let Ok(descr) = stored_descr(alloc, id, parents.as_slice(), tops, prepared) else {
        return Err(MergeFault::Memory);
    };
    let Ok(going) = list_going(alloc, world, &ends) else {
        return Err(MergeFault::Memory);
    };
    match store_without::<K, H>(alloc, keeper, world, plan, descr, going) {
        Ok(()) => {
            end_all(world, &ends);
            Ok(answer_of(prepared))
        }
        Err(KeepFault::Failed) => Err(MergeFault::Keeper),
        Err(KeepFault::Memory) => Err(MergeFault::Memory),
    }
}

/// Puts a block into the world and the keeper, from which others go, in one batch.
fn store_without<K: Keeper, H: Hash32>(
    alloc: Global,
    keeper: &mut K,
    world: &mut World,
    plan: Plan,
    descr: Descr,
    going: Going,
) -> Result<(), KeepFault>
    requires fit { IsDescrFit descr }
    requires once { IsDistinct same_key (map key_of going.ids.items ++ key_of descr.id ∷ []) }
    ensures world { OnOk result (world.new ≡ with_block world.old descr) }
    ensures made { OnOk result ((after : Rows)
        × IsDropping K.held H.digest_of keeper.old plan.entry going.roots.items after
        × IsPlanMade K.held K.trail K.batches after descr going.ids.items keeper.old keeper.new) }
    ensures still { OnErr result (world.new ≡ world.old) }
    ensures undone { OnErr result (KeepsHeld K.held K.trail K.batches keeper.old keeper.new) }
    ensures cause { HasKeepCause (K.faults keeper.old) (K.faults keeper.new) result }
    ensures quiet { going.roots.items ≡ [] → K.reads keeper.new ≡ K.reads keeper.old }
    ensures reads { IsDropRead K.held H.digest_of keeper.old plan.entry going.roots.items
        (K.reads keeper.old) (K.reads keeper.new) }
{
    match plan_ended::<K, H>(alloc, keeper, plan, going.roots.as_slice()) {
        Ok(plan) => store_block(alloc, keeper, world, plan, descr, going.ids),
        Err(fault) => Err(fault),
    }
}

/// The plan by which a block comes, once blocks with these roots go. Reads nothing where none does.
fn plan_ended<'a, K: Keeper, H: Hash32>(
    alloc: Global,
    keeper: &mut K,
    plan: Plan<'a>,
    roots: &[Hash256],
) -> Result<Plan<'a>, KeepFault>
    ensures dropped { IfOk result (λ after.
        IsDropping K.held H.digest_of keeper.old plan.entry roots.now after) }
    ensures keeps { KeepsHeld K.held K.trail K.batches keeper.old keeper.new }
    ensures cause { HasKeepCause (K.faults keeper.old) (K.faults keeper.new) result }
    ensures quiet { roots.now ≡ [] → K.reads keeper.new ≡ K.reads keeper.old }
    ensures reads { IsDropRead K.held H.digest_of keeper.old plan.entry roots.now
        (K.reads keeper.old) (K.reads keeper.new) }
{
    if roots.is_empty() {
        return Ok(plan);
    }
    match plan_drop(alloc, keeper, plan, roots) {
        Ok(plan) => Ok(plan),
        Err(fault) => Err(keep_fault(fault)),
    }
}

/// Why the world refuses a block over pinned parents.
fn merge_refusal<H: Hash32>(
    world: &World,
    ends: &Ends,
    parents: &[BlockId],
    id: &BlockId,
    prepared: &Prepared<H>,
) -> Option<MergeFault>
    requires { parents.now ≡ blocks_of (rows_of_ends ends.now) }
    ensures refusal { option_and_then replies.merge_refusal result
        ≡ unmergeable H.digest_of world.now id.now prepared.now (Some (rows_of_ends ends.now)) }
    ensures kind { IfSome result IsOfParents }
{
    if !is_over_parents(world, ends, prepared) {
        return Some(MergeFault::WrongPin);
    }
    if find_block(world, id).is_some() {
        return Some(MergeFault::Known);
    }
    if let Err(fault) = lineage(id, parents) {
        return Some(MergeFault::Lineage(fault));
    }
    None
}

/// Whether a value was prepared over the state of the one parent, or over the joined tree of both.
fn is_over_parents<H: Hash32>(world: &World, ends: &Ends, prepared: &Prepared<H>) -> bool
    ensures { result ≡ machine.is_over prepared.now
        (old_info H.digest_of (map (block_at world.now) (blocks_of (rows_of_ends ends.now)))) }
{
    let Some(first) = find_block(world, &ends.first.block) else {
        return false;
    };
    let first = root_of(first);
    let Some(second) = &ends.second else {
        return is_over(prepared, &first);
    };
    match find_block(world, &second.block) {
        Some(second) => is_over_both(prepared, &first, &root_of(second)),
        None => false,
    }
}

/// Whether a value was prepared over the joined tree of two states, which is of no depth over the greatest.
fn is_over_both<H: Hash32>(prepared: &Prepared<H>, left: &ChildInfo, right: &ChildInfo) -> bool
    requires left { left.now.mask ≡ 0 }
    requires right { right.now.mask ≡ 0 }
    ensures { result ≡ machine.is_over prepared.now
        (Some (info_of_face H.digest_of (joined_face left.now right.now))) }
{
    if u32::from(left.depth_at(0).max(right.depth_at(0))) >= GREATEST_DEPTH {
        return false;
    }
    is_over(prepared, &face_info::<H>(&split_face(left, right)))
}

/// Whether a value was prepared over a tree with this root, which is of no depth over the greatest.
fn is_over<H: Hash32>(prepared: &Prepared<H>, old: &ChildInfo) -> bool
    ensures { result ≡ machine.is_over prepared.now (Some old.now) }
{
    if u32::from(old.height()) > GREATEST_DEPTH {
        return false;
    }
    match prepared.old() {
        Some(stated) => stated.0 == old.rep().0,
        None => false,
    }
}

/// A plan's fault as that of a merge.
fn merge_fault(fault: CountFault) -> MergeFault
    ensures { result ≡ merge_of fault }
{
    match fault {
        CountFault::Clash {
            hash,
            stored,
            offered,
        } => MergeFault::Clash {
            hash,
            stored,
            offered,
        },
        CountFault::CountFull { hash, count } => MergeFault::CountFull { hash, count },
        CountFault::Keeper => MergeFault::Keeper,
        CountFault::Memory => MergeFault::Memory,
    }
}

/// The pins that a merge names; none where one isn't a pin of the worker, or both are one.
fn ends_at(world: &World, worker: u16, pin: u64, other: Option<u64>) -> Option<Ends>
    ensures { option_map rows_of_ends result ≡ rows_at world.now worker pin other }
{
    let first = *pin_row(world, worker, pin)?;
    let Some(other) = other else {
        return Some(Ends {
            first,
            second: None,
        });
    };
    if pin == other {
        return None;
    }
    let second = *pin_row(world, worker, other)?;
    Some(Ends {
        first,
        second: Some(second),
    })
}

/// Whether two pins are one.
fn is_same_pin(a: &PinRow, b: &PinRow) -> bool
    ensures { result ≡ is_pin b.now.worker b.now.pin a.now }
{
    a.pin == b.pin && a.worker == b.worker
}

/// Whether a pin but these two is on a block.
fn is_held_besides(pins: &[PinRow], first: &PinRow, second: &PinRow, id: &BlockId) -> bool
    ensures { result ≡ is_pinned_besides first.now second.now id.now pins.now }
{
    pins.iter().any(|r| !is_same_pin(r, first)
        && !is_same_pin(r, second)
        && is_same_id(&r.block, id))
}

/// Whether a block goes with the pins' end, the first one first.
fn goes(world: &World, ends: &Ends, block: &Descr) -> bool
    ensures { result ≡ goes_in_turn world.now (rows_of_ends ends.now) block.now }
{
    if waits_for(world, &ends.first, &ends.first, block) {
        return true;
    }
    match &ends.second {
        Some(second) => waits_for(world, &ends.first, second, block),
        None => false,
    }
}

/// Whether a leaving block waits for the end of this pin alone, once another has ended.
fn waits_for(world: &World, ended: &PinRow, row: &PinRow, block: &Descr) -> bool
    ensures { result ≡ ((has_id row.now.block block.now && block.now.leaving)
        && not (is_pinned_besides ended.now row.now row.now.block world.now.pins)) }
{
    is_same_id(&block.id, &row.block)
        && block.leaving
        && !is_held_besides(world.pins.as_slice(), ended, row, &row.block)
}

/// The blocks that go with the pins' end: their roots and ids.
#[derive(Drop)]
struct Going {
    roots: Vec<Hash256>,
    ids: Vec<BlockId>,
}

/// Lists the blocks that go with the pins' end.
fn list_going(alloc: Global, world: &World, ends: &Ends) -> Result<Going, Memory>
    ensures { IfOk result (λ going. AreGoing world.now (rows_of_ends ends.now)
        going.roots.items going.ids.items world.now.blocks) }
{
    let mut going = Going {
        roots: Vec::new(alloc),
        ids: Vec::new(alloc),
    };
    for block in world.blocks.as_slice() {
        list_if_going(&mut going, world, ends, block)?;
    }
    Ok(going)
}

/// Adds a block, if it goes.
fn list_if_going(going: &mut Going, world: &World, ends: &Ends, block: &Descr) -> Result<(), Memory>
    ensures { (blocks : List Descr)
        → AreGoing world.now (rows_of_ends ends.now) going.old.roots.items going.old.ids.items blocks
        → OnOk result (AreGoing world.now (rows_of_ends ends.now)
        going.new.roots.items going.new.ids.items (blocks ++ block.now ∷ [])) }
{
    if goes(world, ends, block) {
        going.roots.push(block.root)?;
        going.ids.push(block.id)?;
    }
    Ok(())
}

/// The pins' blocks, which are the parents.
fn parents_of(alloc: Global, ends: &Ends) -> Result<Vec<BlockId>, Memory>
    ensures { IfOk result (λ parents. parents.items ≡ blocks_of (rows_of_ends ends.now)) }
{
    let mut parents = Vec::new(alloc);
    parents.push(ends.first.block)?;
    if let Some(second) = &ends.second {
        parents.push(second.block)?;
    }
    Ok(parents)
}

/// Ends the pins in the world, the first one first.
fn end_all(world: &mut World, ends: &Ends)
    requires { IsWritable world.old }
    ensures { world.new ≡ without_pins world.old (rows_of_ends ends.now) }
{
    end_row(world, &ends.first);
    if let Some(second) = &ends.second {
        end_row(world, second);
    }
}

/// Ends a pin in the world: where its block is leaving and has no other pin, the block goes too.
fn end_row(world: &mut World, row: &PinRow)
    requires { IsWritable world.old }
    ensures gone { world.new ≡ without_pin world.old row.now }
    ensures kept { IsWritable world.new }
{
    if let Some(place) = collected_place(world, row) {
        world.blocks.remove(place);
        world.pins.drop_pin(row.worker, row.pin);
        return;
    }
    world.pins.drop_pin(row.worker, row.pin);
}
