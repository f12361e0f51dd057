ghost use Rattle.std.specs.Prelude.{◌≡◌, ℕ, ◌-◌, ◌^◌, List, [], All, AllPairs, None, min, length, IfSome, IfOk, IfErr, OnOk};
ghost use Rattle.std.specs.List.{sum_by};
ghost use Rattle.std.specs.FinMap as finite;
ghost use Rattle.cd_base.specs.declared.hash.Hash256.{Hash256};
ghost use Rattle.cd_block.specs.Description.{IsDescrFit};
ghost use Rattle.cd_keeper.specs.Keeping.{KeepsHeld};
ghost use Rattle.cd_world.specs.Standing.{IsBeforeBlock};
ghost use Rattle.cd_restart.specs.Lists.{first_of};
ghost use Rattle.cd_restart.specs.Stored.{AreBytes, cells_in};
ghost use Rattle.cd_restart.specs.ScanFaults.{record_fault, counted_fault, scan_fault};
ghost use Rattle.cd_restart.specs.Rows.{AreRowsOf};
ghost use Rattle.cd_restart.specs.Answers.{Answers, HasScanCause};
ghost use Rattle.cd_restart.specs.Found.{opened_of};
ghost use Rattle.cd_restart.specs.Opened.{IsRead, IsOpened, IsDamaged};

use crate::checks::{check_counts, check_lineages, check_roots};
use crate::opened::Opened;
use crate::passes::{check_kids, read_blocks, read_cells};
use crate::row::Row;
use crate::scan_fault::ScanFault;
use cd_block::Descr;
use cd_cell::Hash32;
use cd_keeper::Keeper;
use cd_world::Rows;
use std::alloc::Global;

/// Looks whether the cells that were read fit one another and the blocks, and gives the sum of their counts.
fn check_cells<K: Keeper>(
    keeper: &mut K,
    blocks: &[Descr],
    rows: &mut [Row],
) -> Result<u64, ScanFault>
    ensures answers { IfSome (K.held keeper.old) (λ contents. (H : List ℕ → Hash256)
        → first_of record_fault (finite.entries contents.cells) ≡ None
        → AreRowsOf H (cells_in contents) [] rows.old
        → Answers (counted_fault H blocks.now (cells_in contents)) result) }
    ensures counts { IfOk result (λ counts. IfSome (K.held keeper.old) (λ contents. (H : List ℕ → Hash256)
        → first_of record_fault (finite.entries contents.cells) ≡ None
        → AreRowsOf H (cells_in contents) [] rows.old
        → counts ≡ min (sum_by (λ c. c.1.count) (cells_in contents)) (2 ^ 64 - 1))) }
    ensures keeps { KeepsHeld K.held K.trail K.batches keeper.old keeper.new }
    ensures cause { HasScanCause (K.faults keeper.old) (K.faults keeper.new) result }
{
    check_kids(keeper, rows)?;
    check_roots(blocks, rows)?;
    check_counts(rows)
}

/// What was read of a store: its blocks, and how much it holds.
#[derive(Drop)]
pub struct Found {
    pub blocks: Vec<Descr>,
    pub cells: u64,
    pub counts: u64,
}

/// Reads all that a keeper holds, and looks whether it is a store.
pub fn read_store<K: Keeper, H: Hash32>(alloc: Global, keeper: &mut K) -> Result<Found, ScanFault>
    ensures answers { IfSome (K.held keeper.old) (λ contents. Answers (scan_fault H.digest_of contents) result) }
    ensures read { IfOk result (λ found. IfSome (K.held keeper.old)
        (λ contents. IsRead contents (opened_of found))) }
    ensures written { IfOk result (λ found. All IsDescrFit found.blocks.items) }
    ensures ordered { IfOk result (λ found. AllPairs IsBeforeBlock found.blocks.items) }
    ensures keeps { KeepsHeld K.held K.trail K.batches keeper.old keeper.new }
    ensures cause { HasScanCause (K.faults keeper.old) (K.faults keeper.new) result }
{
    let blocks = read_blocks(alloc, keeper)?;
    check_lineages(blocks.as_slice())?;
    let mut rows = read_cells::<K, H>(alloc, keeper)?;
    let counts = check_cells(keeper, blocks.as_slice(), rows.as_mut_slice())?;
    let cells = rows.len() as u64;
    Ok(Found {
        blocks,
        cells,
        counts,
    })
}

/// Reads all that a keeper holds and looks whether it is a store: the contents of a sound world. It is Ok exactly where it
/// is, but for a fault of the keeper and want of memory, and then gives the world's blocks and how much it holds. Each
/// record is read twice, and hashed once. Memory is taken for each cell, for its hash, counts, depth and mask, and for
/// what a cell of another mask than 0 shows.
pub fn scan<K: Keeper, H: Hash32>(alloc: Global, keeper: &mut K) -> Result<Opened, ScanFault>
    // Which refusal it is, and that there is none at an Ok.
    ensures answers { IfSome (K.held keeper.old) (λ contents. Answers (scan_fault H.digest_of contents) result) }

    // At an Ok these are the contents of a sound world without pins, with these blocks and this much in it.
    ensures opened { IfOk result (λ opened. IfSome (K.held keeper.old)
        (λ contents. IsOpened H.digest_of contents opened)) }

    // After a refusal they are those of none.
    ensures damaged { IfErr result (λ fault. IfSome (K.held keeper.old)
        (λ contents. IsDamaged H.digest_of contents fault)) }
    ensures keeps { KeepsHeld K.held K.trail K.batches keeper.old keeper.new }
    ensures cause { HasScanCause (K.faults keeper.old) (K.faults keeper.new) result }
{
    match read_store::<K, H>(alloc, keeper) {
        Ok(found) => Ok(Opened {
            blocks: Rows::from(found.blocks),
            cells: found.cells,
            counts: found.counts,
        }),
        Err(fault) => Err(fault),
    }
}
