//! Leaving blocks that a stop left behind are dropped.
ghost use Rattle.std.specs.Prelude.{◌≡◌, [], find, remove, slice_get, true, IfSome, None, Some, OnOk, OnErr};
ghost use Rattle.cd_block.specs.declared.description.Descr.{Descr};
ghost use Rattle.cd_keeper.specs.Keeping.{KeepsHeld};
ghost use Rattle.cd_event.specs.Turning.{RisesOnly};
ghost use Rattle.cd_core.specs.Cores.{IsWritable, opened};
ghost use Rattle.cd_core.specs.Settling.{SettlesBy, first_leaving, is_leaving, told_without_leaving, without_first};
ghost use Rattle.cd_core.specs.Steps.{Batches, is_keeper_fault, IsOutsideFault};

use crate::body::Core;
use crate::collecting::drop_block;
use crate::start::CoreStart;
use cd_block::BlockId;
use cd_cell::Hash32;
use cd_event::UnpinFault;
use cd_keeper::Keeper;
use cd_world::{PinRow, World};
use std::alloc::Global;
use std::snapshot::Snapshot;

impl<K: Keeper, H: Hash32> Core<K, H> {
    /// Drops the leaving block with the least id, in one batch, as long as nothing was asked of the core: then no block has
    /// a pin. None exactly where no block is leaving. Makes no entry: the core begins anew with what is left.
    pub fn settle_next(&mut self) -> Result<Option<BlockId>, UnpinFault>
        requires { self.old.journal ≡ [] }
        ensures journal { self.new.journal ≡ [] }
        ensures settles { SettlesBy K.held H.digest_of K.trail K.batches result self.old self.new }
        ensures cause { RisesOnly (is_keeper_fault result)
            (K.faults self.old.keeper) (K.faults self.new.keeper) }
        ensures outside { IsOutsideFault result }
    {
        let Some(place) = leaving_place(&self.world) else {
            return Ok(None);
        };
        let id = self.world.blocks.as_slice()[place].id;
        match drop_leaving::<K, H>(self.alloc, &mut self.keeper, &self.world, place) {
            Ok(()) => {
                self.world.blocks.remove(place);
                self.start = CoreStart {
                    world: Snapshot::of(&self.world),
                    keeper: Snapshot::of(&self.keeper),
                    limit: self.start.limit,
                };
                Ok(Some(id))
            }
            Err(fault) => Err(fault),
        }
    }
}

/// The place of the leaving block with the least id.
fn leaving_place(world: &World) -> Option<usize>
    ensures some { IfSome result (λ place. (d : Descr) × (slice_get world.now.blocks place ≡ Some d)
        × (first_leaving world.now ≡ Some d)
        × (remove world.now.blocks place ≡ without_first is_leaving world.now.blocks)) }
    ensures none { result ≡ None → first_leaving world.now ≡ None }
{
    let blocks = world.blocks.as_slice();
    for place in 0..blocks.len() {
        let block = &blocks[place];
        if block.leaving {
            return Some(place);
        }
    }
    None
}

/// Drops the leaving block in this place from the keeper, in one batch.
fn drop_leaving<K: Keeper, H: Hash32>(
    alloc: Global,
    keeper: &mut K,
    world: &World,
    place: usize,
) -> Result<(), UnpinFault>
    requires first { (d : Descr) × (slice_get world.now.blocks place ≡ Some d)
        × (first_leaving world.now ≡ Some d)
        × (remove world.now.blocks place ≡ without_first is_leaving world.now.blocks) }
    requires bare { world.now ≡ opened world.now.blocks }
    requires kept { IsWritable world.now }
    ensures done { OnOk result (Batches K.held H.digest_of K.trail K.batches world.now told_without_leaving
        keeper.old keeper.new) }
    ensures undone { OnErr result (KeepsHeld K.held K.trail K.batches keeper.old keeper.new) }
    ensures cause { RisesOnly (is_keeper_fault result) (K.faults keeper.old) (K.faults keeper.new) }
    ensures outside { IsOutsideFault result }
{
    // It goes as with the end of its last pin, though there is none.
    let ended = PinRow {
        pin: 0,
        worker: 0,
        block: world.blocks.as_slice()[place].id,
    };
    drop_block::<K, H>(alloc, keeper, world, &ended, place)
}
