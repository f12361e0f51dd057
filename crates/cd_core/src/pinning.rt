//! A pin begins.
ghost use Rattle.std.specs.Prelude.{◌≡◌, ◌<◌, ◌≤◌, ◌+◌, ◌^◌, ℕ, IfOk, Some};
ghost use Rattle.cd_record.specs.declared.limits.TheConstants.{GREATEST_COUNT};
ghost use Rattle.cd_event.specs.declared.event.Event.TheVariants.{Pin};
ghost use Rattle.cd_event.specs.Replies.{pin_reply};
ghost use Rattle.cd_world.specs.Standing.{kept_at};
ghost use Rattle.cd_world.specs.Machine.{root_info};
ghost use Rattle.cd_block.specs.declared.description.Descr.{Descr};
ghost use Rattle.cd_core.specs.Cores.{IsWritable, world_of};
ghost use Rattle.cd_core.specs.Effects.{Adds, IsPinOf};
ghost use Rattle.cd_core.specs.Steps.{Did};

use crate::body::{Core, make_room, note};
use crate::replying::pin_reply;
use cd_base::Memory;
use cd_block::{BlockId, Descr};
use cd_cell::{ChildInfo, Hash32, Mask};
use cd_event::{Event, PinFault, Pinned, Who};
use cd_keeper::Keeper;
use cd_world::{MOST_PINS, PinRow, World, find_kept, pins_of};

impl<K: Keeper, H: Hash32> Core<K, H> {
    /// Pins a kept block, so that its state stays as it is until the pin ends. Asks the keeper for nothing.
    pub fn pin(&mut self, who: Who, id: BlockId) -> Result<Pinned, PinFault>
        ensures start { self.new.start ≡ self.old.start }
        ensures keeper { self.new.keeper ≡ self.old.keeper }
        ensures adds { Adds K.held H.digest_of self.old.start self.old.journal who (Pin id)
            (pin_reply result) self.new.journal }
        ensures root { IfOk result (IsPinOf K.held H.digest_of self.old.start self.old.journal id) }
    {
        let Ok(()) = make_room(&mut self.journal, who) else {
            return Err(PinFault::Memory);
        };
        let answer = begin_pin::<K, H>(&mut self.world, who, &id);
        let reply = pin_reply(&answer);
        note(&mut self.journal, who, Event::Pin { id }, reply);
        answer
    }
}

/// What the root of a block's state shows: its mask is 0.
pub(crate) fn root_of(block: &Descr) -> ChildInfo
    ensures { result ≡ root_info block.now }
{
    ChildInfo {
        mask: Mask::NONE,
        hashes: [block.root; 4],
        depths: [block.depth; 4],
    }
}

/// Adds a pin of a kept block to the world.
fn begin_pin<K: Keeper, H: Hash32>(
    world: &mut World,
    who: Who,
    id: &BlockId,
) -> Result<Pinned, PinFault>
    requires kept { IsWritable world.old }
    requires next { world.old.next + 1 < 2 ^ 64 }
    ensures did { (limit : ℕ) (k : K) → limit ≤ GREATEST_COUNT
        → Did K.held H.digest_of K.trail {X = H} K.batches K.faults limit world.old k who
        (Pin id.now) (pin_reply result) world.new k }
    ensures root { IfOk result (λ pinned. (d : Descr) × (kept_at world.old id.now ≡ Some d)
        × (pinned.root ≡ root_info d)) }
{
    let Some(block) = find_kept(world, id) else {
        return Err(PinFault::UnknownBlock);
    };
    let root = root_of(block);
    if pins_of(world, who.worker) >= MOST_PINS {
        return Err(PinFault::PinsFull);
    }
    let pin = world.next;
    let row = PinRow {
        pin,
        worker: who.worker,
        block: *id,
    };
    match world.pins.push(row) {
        Ok(()) => {
            world.next = pin + 1;
            Ok(Pinned { pin, root })
        }
        Err(Memory) => Err(PinFault::Memory),
    }
}
