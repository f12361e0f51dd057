//! What the store holds, counted.
ghost use Rattle.std.specs.Prelude.{◌≡◌, length, IfOk, IfSome};
ghost use Rattle.std.specs.FinMap as finite;
ghost use Rattle.cd_keeper.specs.Keeping.{KeepsHeld};
ghost use Rattle.cd_event.specs.Turning.{RisesOnly};
ghost use Rattle.cd_core.specs.Effects.{AreTotals, at_most_last};
ghost use Rattle.cd_core.specs.Steps.{is_keeper_fault, IsOutsideFault};
ghost use Rattle.cd_core.specs.Totalling as spec;
ghost use Rattle.cd_core.specs.Totalling.{AreSums};

use crate::body::Core;
use cd_cell::Hash32;
use cd_event::UnpinFault;
use cd_keeper::{KeepFault, Keeper};
use cd_record::decode;
use cd_world::{Totals, World};

impl<K: Keeper, H: Hash32> Core<K, H> {
    /// The numbers of blocks, of held cells and of all references to these, each no more than the last `u64`. Reads
    /// every record once. Makes no entry, and is never refused for a pin.
    pub fn totals(&mut self) -> Result<Totals, UnpinFault>
        ensures start { self.new.start ≡ self.old.start }
        ensures journal { self.new.journal ≡ self.old.journal }
        ensures keeper { KeepsHeld K.held K.trail K.batches self.old.keeper self.new.keeper }
        ensures cause { RisesOnly (is_keeper_fault result)
            (K.faults self.old.keeper) (K.faults self.new.keeper) }
        ensures outside { IsOutsideFault result }
        ensures totals { IfOk result
            (AreTotals K.held H.digest_of self.old.start self.old.journal) }
    {
        let blocks = count_blocks(&self.world);
        let sums = match total_cells(&mut self.keeper) {
            Ok(sums) => sums,
            Err(fault) => return Err(fault),
        };
        Ok(Totals {
            blocks,
            cells: sums.0,
            counts: sums.1,
        })
    }
}

fn count_blocks(world: &World) -> u64
    ensures { result ≡ at_most_last (length world.now.blocks) }
{
    world.blocks.as_slice().len() as u64
}

/// The number of all records, and that of all references that they count.
fn total_cells<K: Keeper>(keeper: &mut K) -> Result<(u64, u64), UnpinFault>
    ensures keeps { KeepsHeld K.held K.trail K.batches keeper.old keeper.new }
    ensures cause { RisesOnly (is_keeper_fault result)
        (K.faults keeper.old) (K.faults keeper.new) }
    ensures outside { IsOutsideFault result }
    ensures sums { IfOk result (λ sums. IfSome (K.held keeper.old)
        (λ contents. AreSums (finite.entries contents.cells) sums.0 sums.1)) }
{
    let mut after = None;
    let mut cells: u64 = 0;
    let mut counts: u64 = 0;
    'reading: for _ in 0..u64::MAX {
        match keeper.next_cell(after) {
            Ok(Some((hash, bytes))) => {
                cells = cells.saturating_add(1);
                counts = counts.saturating_add(count_in(bytes.as_slice()));
                after = Some(hash);
            }
            Ok(None) => return Ok((cells, counts)),
            Err(KeepFault::Failed) => return Err(UnpinFault::Keeper),
            Err(KeepFault::Memory) => return Err(UnpinFault::Memory),
        }
    }
    // No keeper has as many records.
    Err(UnpinFault::Memory)
}

/// The count of a record; bytes that are none count as nothing.
fn count_in(bytes: &[u8]) -> u64
    ensures { result ≡ spec.count_in bytes.now }
{
    match decode(bytes) {
        Ok(record) => record.count,
        Err(_) => 0,
    }
}
