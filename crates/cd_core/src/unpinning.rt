//! A pin ends.
ghost use Rattle.std.specs.Prelude.{◌≡◌, ◌≤◌, ◌+◌, ◌*◌, ◌∷◌, ℕ, List, length, map, filter, false, IfSome};
ghost use Rattle.cd_cell.specs.Tree.{Tree};
ghost use Rattle.cd_record.specs.declared.limits.TheConstants.{GREATEST_COUNT};
ghost use Rattle.cd_event.specs.declared.event.Event.TheVariants.{Unpin};
ghost use Rattle.cd_event.specs.Replies.{unpin_reply};
ghost use Rattle.cd_event.specs.Turning.{is_keeper, RisesOnly};
ghost use Rattle.cd_world.specs.Standing.{pin_at};
ghost use Rattle.cd_world.specs.Machine.{is_pin_collected};
ghost use Rattle.cd_world.specs.Told.{ToldWorld, told_replay};
ghost use Rattle.cd_core.specs.Cores.{IsWritable, Holds, told_start, world_of};
ghost use Rattle.cd_core.specs.Effects.{Adds, AreCollected};
ghost use Rattle.cd_core.specs.Steps.{Did};

use crate::body::{Core, make_room, note};
use crate::collecting::{collected_place, drop_block};
use crate::replying::unpin_reply;
use cd_cell::Hash32;
use cd_event::{Event, UnpinFault, Who};
use cd_keeper::Keeper;
use cd_world::{World, pin_row};
use std::alloc::Global;

impl<K: Keeper, H: Hash32> Core<K, H> {
    /// Ends a pin. True exactly where its block went with it, in one batch: a leaving block whose last pin this was.
    /// Reads nothing where no block goes, else at most 4 records for each cell that goes and one more. After `Keeper` the
    /// pin is live.
    pub fn unpin(&mut self, who: Who, pin: u64) -> Result<bool, UnpinFault>
        ensures start { self.new.start ≡ self.old.start }
        ensures adds { Adds K.held H.digest_of self.old.start self.old.journal who (Unpin pin)
            (unpin_reply result) self.new.journal }
        ensures cause { RisesOnly (is_keeper (unpin_reply result))
            (K.faults self.old.keeper) (K.faults self.new.keeper) }
        ensures quiet { let w = world_of self.old in is_pin_collected w (pin_at w who.worker pin) ≡ false
            → K.reads self.new.keeper ≡ K.reads self.old.keeper }
        ensures reads { IfSome (told_start K.held self.old.start) (λ t. (dead : List Tree)
            → AreCollected H.digest_of (told_replay H.digest_of t self.old.journal) who.worker pin dead
            → K.reads self.new.keeper ≤ K.reads self.old.keeper + (4 * length dead + 1)) }
    {
        let Ok(()) = make_room(&mut self.journal, who) else {
            return Err(UnpinFault::Memory);
        };
        let answer = end_pin::<K, H>(self.alloc, &mut self.keeper, &mut self.world, who, pin);
        let reply = unpin_reply(&answer);
        note(&mut self.journal, who, Event::Unpin { pin }, reply);
        answer
    }
}

/// Ends a worker's pin, and drops the block that waits for its end alone.
fn end_pin<K: Keeper, H: Hash32>(
    alloc: Global,
    keeper: &mut K,
    world: &mut World,
    who: Who,
    pin: u64,
) -> Result<bool, UnpinFault>
    requires kept { IsWritable world.old }
    ensures did { (limit : ℕ) → limit ≤ GREATEST_COUNT
        → Did K.held H.digest_of K.trail {X = H} K.batches K.faults limit world.old keeper.old who
        (Unpin pin) (unpin_reply result) world.new keeper.new }
    ensures quiet { is_pin_collected world.old (pin_at world.old who.worker pin) ≡ false
        → K.reads keeper.new ≡ K.reads keeper.old }
    ensures reads { (t : ToldWorld) (dead : List Tree) → t.world ≡ world.old
        → Holds K.held H.digest_of t keeper.old
        → AreCollected H.digest_of t who.worker pin dead
        → K.reads keeper.new ≤ K.reads keeper.old + (4 * length dead + 1) }
{
    let Some(row) = pin_row(world, who.worker, pin) else {
        return Err(UnpinFault::NoPin);
    };
    let row = *row;
    match collected_place(world, &row) {
        None => {
            world.pins.drop_pin(row.worker, row.pin);
            Ok(false)
        }
        Some(place) => match drop_block::<K, H>(alloc, keeper, world, &row, place) {
            Ok(()) => {
                world.blocks.remove(place);
                world.pins.drop_pin(row.worker, row.pin);
                Ok(true)
            }
            Err(fault) => Err(fault),
        },
    }
}
