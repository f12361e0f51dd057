//! The passes over all that a keeper holds.

ghost use Rattle.std.specs.Prelude.{◌≡◌, ℕ, List, [], All, AllPairs, None, IfSome, IfOk, OnOk};
ghost use Rattle.std.specs.List.{AllByRecursion};
ghost use Rattle.std.specs.FinMap as finite;
ghost use Rattle.cd_base.specs.declared.hash.Hash256.{Hash256};
ghost use Rattle.cd_block.specs.Description.{IsDescrFit};
ghost use Rattle.cd_cell.specs.Equality.{same_hash};
ghost use Rattle.cd_keeper.specs.Keeping.{KeepsHeld};
ghost use Rattle.cd_world.specs.Standing.{IsBeforeBlock};
ghost use Rattle.cd_restart.specs.Lists.{first_of};
ghost use Rattle.cd_restart.specs.Stored.{IsDescEntry, IsCellEntry, blocks_in, cells_in};
ghost use Rattle.cd_restart.specs.ScanFaults as faults;
ghost use Rattle.cd_restart.specs.Rows.{AreRowsOf, kid_references};
ghost use Rattle.cd_restart.specs.Answers.{Answers, IsOwn, HasScanCause};

use crate::checks::check_kids_of;
use crate::reading::{next_block, next_record};
use crate::row::Row;
use crate::scan_fault::ScanFault;
use cd_base::Hash256;
use cd_block::Descr;
use cd_cell::{Hash32, face_info};
use cd_keeper::Keeper;
use std::alloc::Global;

/// Reads all descriptions, in the order of their keys. Refuses the first one that is none.
pub fn read_blocks<K: Keeper>(alloc: Global, keeper: &mut K) -> Result<Vec<Descr>, ScanFault>
    ensures answers { IfSome (K.held keeper.old) (λ contents.
        Answers (first_of faults.desc_fault (finite.entries contents.descs)) result) }
    ensures blocks { IfOk result (λ blocks. IfSome (K.held keeper.old)
        (λ contents. blocks.items ≡ blocks_in contents)) }
    ensures fit { OnOk result (IfSome (K.held keeper.old)
        (λ contents. AllByRecursion IsDescEntry (finite.entries contents.descs))) }
    ensures written { IfOk result (λ blocks. All IsDescrFit blocks.items) }
    ensures ordered { IfOk result (λ blocks. AllPairs IsBeforeBlock blocks.items) }
    ensures keeps { KeepsHeld K.held K.trail K.batches keeper.old keeper.new }
    ensures cause { HasScanCause (K.faults keeper.old) (K.faults keeper.new) result }
{
    let mut all = Vec::new(alloc);
    let mut after = None;
    'reading: for _ in 0..u64::MAX {
        let Some(block) = next_block(alloc, keeper, after)? else {
            return Ok(all);
        };
        after = Some(block.id.to_key());
        all.push(block)?;
    }
    // No memory could hold as many.
    Err(ScanFault::Memory)
}

/// The fault of a cell whose hash isn't its key.
fn key_fault(hash: Hash256, real: Hash256) -> Option<ScanFault>
    ensures value { result ≡ faults.unless (same_hash real hash) (ScanFault.WrongKey hash real) }
    ensures own { IfSome result IsOwn }
{
    if real == hash {
        return None;
    }
    Some(ScanFault::WrongKey { hash, real })
}

/// Reads all cells, in the order of their hashes. Refuses the first record that is none, and else the first one whose
/// cell has another hash.
pub fn read_cells<K: Keeper, H: Hash32>(
    alloc: Global,
    keeper: &mut K,
) -> Result<Vec<Row>, ScanFault>
    ensures answers { IfSome (K.held keeper.old) (λ contents.
        Answers (faults.cells_fault H.digest_of (finite.entries contents.cells) (cells_in contents)) result) }
    ensures rows { IfOk result (λ rows. IfSome (K.held keeper.old)
        (λ contents. AreRowsOf H.digest_of (cells_in contents) [] rows.items)) }
    ensures fit { OnOk result (IfSome (K.held keeper.old)
        (λ contents. AllByRecursion IsCellEntry (finite.entries contents.cells))) }
    ensures keeps { KeepsHeld K.held K.trail K.batches keeper.old keeper.new }
    ensures cause { HasScanCause (K.faults keeper.old) (K.faults keeper.new) result }
{
    let mut rows = Vec::new(alloc);
    let mut wrong = None;
    let mut after = None;
    'reading: for _ in 0..u64::MAX {
        let Some((hash, record)) = next_record(keeper, after)? else {
            return match wrong {
                Some(fault) => Err(fault),
                None => Ok(rows),
            };
        };
        let info = face_info::<H>(&record.face);
        wrong = wrong.or(key_fault(hash, info.rep()));
        rows.push(Row::new(alloc, hash, record.count, &info)?)?;
        after = Some(hash);
    }
    // No memory could hold as many.
    Err(ScanFault::Memory)
}

/// Reads all cells once more, and counts the references to their children. Refuses the first child without a record,
/// and else the first one that is another cell than its parent says.
pub fn check_kids<K: Keeper>(keeper: &mut K, rows: &mut [Row]) -> Result<(), ScanFault>
    ensures answers { IfSome (K.held keeper.old) (λ contents. (H : List ℕ → Hash256)
        → first_of faults.record_fault (finite.entries contents.cells) ≡ None
        → AreRowsOf H (cells_in contents) [] rows.old
        → Answers (faults.kids_fault H (cells_in contents) (cells_in contents)) result) }
    ensures counted { OnOk result (IfSome (K.held keeper.old) (λ contents. (H : List ℕ → Hash256)
        → first_of faults.record_fault (finite.entries contents.cells) ≡ None
        → AreRowsOf H (cells_in contents) [] rows.old
        → AreRowsOf H (cells_in contents) (kid_references (cells_in contents)) rows.new)) }
    ensures keeps { KeepsHeld K.held K.trail K.batches keeper.old keeper.new }
    ensures cause { HasScanCause (K.faults keeper.old) (K.faults keeper.new) result }
{
    let mut other = None;
    let mut after = None;
    'reading: for _ in 0..u64::MAX {
        let Some((hash, record)) = next_record(keeper, after)? else {
            return match other {
                Some(fault) => Err(fault),
                None => Ok(()),
            };
        };
        let found = check_kids_of(&hash, record.face.kids(), rows)?;
        other = other.or(found);
        after = Some(hash);
    }
    // No memory could hold the rows of as many.
    Err(ScanFault::Memory)
}
