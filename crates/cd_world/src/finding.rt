ghost use Rattle.std.specs.Prelude.{◌≡◌, ◌↔◌, ◌-◌, ◌^◌, min, IsTrue};
ghost use Rattle.std.specs.Option.{option_copied};
ghost use Rattle.cd_world.specs.Standing as spec;
ghost use Rattle.cd_world.specs.Standing.{same_id, block_at, kept_at, pin_at};

use crate::world::{PinRow, World};
use cd_block::{BlockId, Descr};

/// Whether two ids are the same.
pub fn is_same_id(a: &BlockId, b: &BlockId) -> bool
    ensures test { result ≡ same_id a.now b.now }
    ensures same { IsTrue result ↔ (a.now ≡ b.now) }
{
    a.shard_id.workchain == b.shard_id.workchain
        && a.shard_id.shard == b.shard_id.shard
        && a.seqno == b.seqno
        && a.root.0 == b.root.0
        && a.file.0 == b.file.0
}

/// The block with this id, kept or leaving.
pub fn find_block<'a>(world: &'a World, id: &BlockId) -> Option<&'a Descr>
    ensures { option_copied result ≡ block_at world.now id.now }
{
    world
        .blocks
        .as_slice()
        .iter()
        .find(|d| is_same_id(&d.id, id))
}

/// The block with this id, where it isn't leaving.
pub fn find_kept<'a>(world: &'a World, id: &BlockId) -> Option<&'a Descr>
    ensures { option_copied result ≡ kept_at world.now id.now }
{
    match find_block(world, id) {
        Some(block) if !block.leaving => Some(block),
        _ => None,
    }
}

/// The pin with this number, where it is this worker's.
pub fn pin_row<'a>(world: &'a World, worker: u16, pin: u64) -> Option<&'a PinRow>
    ensures { option_copied result ≡ pin_at world.now worker pin }
{
    world
        .pins
        .as_slice()
        .iter()
        .find(|r| r.pin == pin && r.worker == worker)
}

/// Whether one of these pins is on the block.
pub fn is_pinned(pins: &[PinRow], id: &BlockId) -> bool
    ensures { result ≡ spec.is_pinned pins.now id.now }
{
    pins.iter().any(|r| is_same_id(&r.block, id))
}

/// How many live pins a worker has; no more than the last `u32`, which no world of the store comes near.
pub fn pins_of(world: &World, worker: u16) -> u32
    ensures { result ≡ min (spec.pins_of world.now worker) (2 ^ 32 - 1) }
{
    let count = world
        .pins
        .as_slice()
        .iter()
        .filter(|r| r.worker == worker)
        .count();
    u32::try_from(count).unwrap_or(u32::MAX)
}
