//! A zero state is stored.
ghost use Rattle.std.specs.Prelude.{◌≡◌, ◌≤◌, ◌+◌, ◌*◌, [], length, IfOk, IfSome, None};
ghost use Rattle.std.specs.Option.{option_or, option_and_then};
ghost use Rattle.cd_cell.specs.Listings.{Fits};
ghost use Rattle.cd_record.specs.declared.limits.TheConstants.{GREATEST_COUNT};
ghost use Rattle.cd_event.specs.declared.event.Event.TheVariants.{Zero};
ghost use Rattle.cd_event.specs.Replies.{zero_reply};
ghost use Rattle.cd_event.specs.Replies as replies;
ghost use Rattle.cd_event.specs.Turning.{MayName, IsStored, is_keeper, RisesOnly};
ghost use Rattle.cd_world.specs.Machine.{known, unrelated, other_root};
ghost use Rattle.cd_core.specs.Cores.{IsWritable};
ghost use Rattle.cd_core.specs.Effects.{Adds};
ghost use Rattle.cd_core.specs.Steps.{Did};
ghost use Rattle.cd_core.specs.Storing.{IsOfWorld, zero_of};

use crate::body::{Core, make_room, note};
use crate::placing::{answer_of, plan_state, store_block, stored_descr};
use crate::replying::zero_reply;
use cd_block::{BlockId, BlockIds, lineage};
use cd_cell::{Hash32, Prepared};
use cd_count::CountFault;
use cd_event::{Event, Stored, Who, ZeroFault};
use cd_keeper::{KeepFault, Keeper};
use cd_world::{World, find_block};
use std::alloc::Global;

impl<K: Keeper, H: Hash32> Core<K, H> {
    /// Stores a zero state, all of whose cells are listed, in one batch. `tops` are the shard tops of a masterchain
    /// block. Reads at most 5 records for each listed cell and one more.
    pub fn zero(
        &mut self,
        who: Who,
        id: BlockId,
        tops: BlockIds,
        prepared: Prepared<H>,
    ) -> Result<Stored, ZeroFault>
        requires tops { MayName id tops }
        requires whole { Fits H.digest_of prepared.root prepared.cells [] }
        ensures start { self.new.start ≡ self.old.start }
        ensures adds { Adds K.held H.digest_of self.old.start self.old.journal who (Zero id tops prepared)
            (zero_reply result) self.new.journal }
        ensures stored { IfOk result (IsStored prepared) }
        ensures cause { RisesOnly (is_keeper (zero_reply result))
            (K.faults self.old.keeper) (K.faults self.new.keeper) }
        ensures reads { K.reads self.new.keeper
            ≤ K.reads self.old.keeper + (5 * length prepared.cells + 1) }
    {
        let Ok(()) = make_room(&mut self.journal, who) else {
            return Err(ZeroFault::Memory);
        };
        let limit = self.start.limit;
        let answer = store_zero::<K, H>(
            self.alloc,
            &mut self.keeper,
            &mut self.world,
            limit,
            who,
            &id,
            &tops,
            &prepared,
        );
        let reply = zero_reply(&answer);
        note(
            &mut self.journal,
            who,
            Event::Zero { id, tops, prepared },
            reply,
        );
        answer
    }
}

/// Stores a zero state where nothing refuses it.
fn store_zero<K: Keeper, H: Hash32>(
    alloc: Global,
    keeper: &mut K,
    world: &mut World,
    limit: u64,
    who: Who,
    id: &BlockId,
    tops: &BlockIds,
    prepared: &Prepared<H>,
) -> Result<Stored, ZeroFault>
    requires kept { IsWritable world.old }
    requires limit { limit ≤ GREATEST_COUNT }
    requires tops { MayName id.now tops.now }
    requires whole { Fits H.digest_of prepared.now.root prepared.now.cells [] }
    ensures did { Did K.held H.digest_of K.trail {X = H} K.batches K.faults limit
        world.old keeper.old who
        (Zero id.now tops.now prepared.now) (zero_reply result) world.new keeper.new }
    ensures stored { IfOk result (IsStored prepared.now) }
    ensures reads { K.reads keeper.new ≤ K.reads keeper.old + (5 * length prepared.now.cells + 1) }
{
    if let Some(fault) = zero_refusal(world, id, prepared) {
        return Err(fault);
    }
    let plan = match plan_state(alloc, keeper, world, id, &[], tops, prepared, limit) {
        Ok(plan) => plan,
        Err(fault) => return Err(zero_fault(fault)),
    };
    let Ok(descr) = stored_descr(alloc, id, &[], tops, prepared) else {
        return Err(ZeroFault::Memory);
    };
    match store_block(alloc, keeper, world, plan, descr, Vec::new(alloc)) {
        Ok(()) => Ok(answer_of(prepared)),
        Err(KeepFault::Failed) => Err(ZeroFault::Keeper),
        Err(KeepFault::Memory) => Err(ZeroFault::Memory),
    }
}

/// Why the world refuses a zero state.
fn zero_refusal<H: Hash32>(world: &World, id: &BlockId, prepared: &Prepared<H>) -> Option<ZeroFault>
    ensures refusal { option_and_then replies.zero_refusal result
        ≡ option_or (known world.now id.now)
        (option_or (unrelated id.now []) (other_root id.now prepared.now)) }
    ensures kind { IfSome result IsOfWorld }
{
    if find_block(world, id).is_some() {
        return Some(ZeroFault::Known);
    }
    if let Err(fault) = lineage(id, &[]) {
        return Some(ZeroFault::Lineage(fault));
    }
    let real = prepared.root().rep();
    if id.root.0 != real.0 {
        return Some(ZeroFault::ZeroHash {
            stated: id.root,
            real,
        });
    }
    None
}

/// A plan's fault as that of a zero state.
fn zero_fault(fault: CountFault) -> ZeroFault
    ensures { result ≡ zero_of fault }
{
    match fault {
        CountFault::Clash {
            hash,
            stored,
            offered,
        } => ZeroFault::Clash {
            hash,
            stored,
            offered,
        },
        CountFault::CountFull { hash, count } => ZeroFault::CountFull { hash, count },
        CountFault::Keeper => ZeroFault::Keeper,
        CountFault::Memory => ZeroFault::Memory,
    }
}
