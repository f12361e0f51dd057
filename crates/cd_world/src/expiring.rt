ghost use Rattle.std.specs.Prelude.{◌≡◌, ◌&&◌, not, map, filter, IfOk};
ghost use Rattle.cd_world.specs.Standing as spec;
ghost use Rattle.cd_world.specs.Changes.{marked};

use crate::finding::is_pinned;
use crate::world::{PinRow, World};
use cd_base::Memory;
use cd_block::{BlockId, Descr, expires};
use std::alloc::Global;

/// Whether a block is kept and expires by a masterchain block and its shard tops.
pub fn is_expired(master: &Descr, block: &Descr) -> bool
    ensures { result ≡ spec.is_expired master.now block.now }
{
    !block.leaving && expires(&block.id, &master.id, master.tops.as_slice())
}

/// The kept blocks that expire by a masterchain block and its shard tops, in the order of their ids.
pub fn expired(alloc: Global, world: &World, master: &Descr) -> Result<Vec<BlockId>, Memory>
    ensures { IfOk result (λ ids. ids.items ≡ map (λ d. d.id) (spec.expired world.now master.now)) }
{
    let mut ids = Vec::new(alloc);
    for block in world.blocks.as_slice() {
        if is_expired(master, block) && ids.push(block.id).is_err() {
            return Err(Memory);
        }
    }
    Ok(ids)
}

/// Drops the blocks that expire and have none of these pins.
pub(crate) fn drop_unpinned(blocks: &mut Vec<Descr>, master: &Descr, pins: &[PinRow])
    ensures { blocks.new.items ≡ filter (λ d. not (spec.is_expired master.now d
        && not (spec.is_pinned pins.now d.id))) blocks.old.items }
{
    blocks.retain(|block| !(is_expired(master, block) && !is_pinned(pins, &block.id)));
}

/// Marks the blocks that expire as leaving.
pub(crate) fn mark_expired(blocks: &mut [Descr], master: &Descr)
    ensures { blocks.new ≡ map (marked master.now) blocks.old }
{
    for block in blocks.iter_mut() {
        mark(block, master);
    }
}

/// Marks a block that expires as leaving.
fn mark(block: &mut Descr, master: &Descr)
    ensures { block.new ≡ marked master.now block.old }
{
    if is_expired(master, block) {
        block.leaving = true;
    }
}
