//! How the rows of a plan change as a block comes.

ghost use Rattle.std.specs.Prelude.{◌≡◌, ◌+◌, ◌*◌, ◌≤◌, [], ◌∷◌, map, length, IfSome, IfOk, IfErr, OnOk};
ghost use Rattle.std.specs.Option.{unwrap_or};
ghost use Rattle.cd_cell.specs.Fit.{IsFaceFit};
ghost use Rattle.cd_keeper.specs.Shown.{hash_bytes};
ghost use Rattle.cd_keeper.specs.Keeping.{KeepsHeld};
ghost use Rattle.cd_count.specs.Reading.{stored_in, HasCountCause};
ghost use Rattle.cd_count.specs.PlanRows.{rows_of};
ghost use Rattle.cd_count.specs.PlanSteps.{fixed_at};
ghost use Rattle.cd_count.specs.PlanGiving.{new_row, is_another, due_kids, due_of, AreRowsGood, IsListed, AreGiven};
ghost use Rattle.cd_count.specs.Clashes.{IsOutside};

use crate::count_fault::CountFault;
use crate::row_face::RowFace;
use crate::rows::{Row, Rows, kid_hashes, read_row};
use cd_base::{Hash256, Memory};
use cd_cell::NewCell;
use cd_keeper::Keeper;
use std::alloc::Global;

/// The row of a listed cell before anything changes.
fn listed_row<'a>(found: Option<Row<'a>>, cell: &'a NewCell) -> Row<'a>
    ensures { result ≡ unwrap_or found.entry (new_row cell.now.face) }
{
    match found {
        Some(row) => row,
        None => Row {
            stored: None,
            count: 0,
            face: RowFace::listed(&cell.face),
        },
    }
}

/// Makes the row of a listed cell. Tells whether another cell is stored under its hash.
pub fn list_cell<'a, K: Keeper>(
    alloc: Global,
    rows: &mut Rows<'a>,
    keeper: &mut K,
    cell: &'a NewCell,
) -> Result<bool, CountFault>
    requires { IsFaceFit cell.now.face }
    ensures listed { OnOk result (IfSome (K.held keeper.old) (λ contents.
        IsListed (stored_in contents) rows.old cell.now rows.new)) }
    ensures clashes { IfOk result (λ clashes. IfSome (K.held keeper.old) (λ contents.
        clashes ≡ is_another (stored_in contents cell.now.hash.0) cell.now.face)) }
    ensures keeps { KeepsHeld K.held K.trail K.batches keeper.old keeper.new }
    ensures good { OnOk result (AreRowsGood (rows_of rows.old.entries) → AreRowsGood (rows_of rows.new.entries)) }
    ensures reads { K.reads keeper.new ≤ K.reads keeper.old + 1 }
    ensures cause { HasCountCause (K.faults keeper.old) (K.faults keeper.new) result }
    ensures outside { IfErr result IsOutside }
{
    let found = read_row(alloc, keeper, &cell.hash)?;
    let row = listed_row(found, cell);
    let clashes = *row.face.get() != cell.face;
    rows.insert(cell.hash, row)?;
    Ok(clashes)
}

/// One reference more. No memory could list as many cells as it takes to pass the last u64.
fn raise(row: &mut Row) -> Result<(), Memory>
    ensures { OnOk result (row.new ≡ record row.old { count = row.old.count + 1 }) }
{
    let Some(count) = row.count.checked_add(1) else {
        return Err(Memory);
    };
    row.count = count;
    Ok(())
}

/// Gives a hash one reference more, where it is listed or stored.
pub fn give_reference<'a, K: Keeper>(
    alloc: Global,
    rows: &mut Rows<'a>,
    keeper: &mut K,
    hash: &Hash256,
) -> Result<(), CountFault>
    ensures given { OnOk result (IfSome (K.held keeper.old) (λ contents.
        AreGiven (stored_in contents) rows.old (hash.now.0 ∷ []) rows.new)) }
    ensures keeps { KeepsHeld K.held K.trail K.batches keeper.old keeper.new }
    ensures good { OnOk result (AreRowsGood (rows_of rows.old.entries) → AreRowsGood (rows_of rows.new.entries)) }
    ensures reads { K.reads keeper.new ≤ K.reads keeper.old + 1 }
    ensures cause { HasCountCause (K.faults keeper.old) (K.faults keeper.new) result }
    ensures outside { IfErr result IsOutside }
{
    if let Some(row) = rows.get_mut(hash) {
        return Ok(raise(row)?);
    }
    let Some(mut row) = read_row(alloc, keeper, hash)? else {
        return Ok(());
    };
    raise(&mut row)?;
    rows.insert(*hash, row)?;
    Ok(())
}

/// Gives each hash one reference more.
fn give_references<'a, K: Keeper>(
    alloc: Global,
    rows: &mut Rows<'a>,
    keeper: &mut K,
    hashes: &[Hash256],
) -> Result<(), CountFault>
    ensures given { OnOk result (IfSome (K.held keeper.old) (λ contents.
        AreGiven (stored_in contents) rows.old (map hash_bytes hashes.now) rows.new)) }
    ensures keeps { KeepsHeld K.held K.trail K.batches keeper.old keeper.new }
    ensures good { OnOk result (AreRowsGood (rows_of rows.old.entries) → AreRowsGood (rows_of rows.new.entries)) }
    ensures reads { K.reads keeper.new ≤ K.reads keeper.old + length hashes.now }
    ensures cause { HasCountCause (K.faults keeper.old) (K.faults keeper.new) result }
    ensures outside { IfErr result IsOutside }
{
    for hash in hashes {
        give_reference(alloc, rows, keeper, hash)?;
    }
    Ok(())
}

/// Gives the children of a listed cell one reference for each place, unless the cell is stored already.
fn give_kids<'a, K: Keeper>(
    alloc: Global,
    rows: &mut Rows<'a>,
    keeper: &mut K,
    cell: &NewCell,
) -> Result<(), CountFault>
    ensures given { OnOk result (IfSome (K.held keeper.old) (λ contents. AreGiven (stored_in contents) rows.old
        (due_kids (fixed_at (stored_in contents) rows.old cell.now.hash.0) cell.now.face) rows.new)) }
    ensures keeps { KeepsHeld K.held K.trail K.batches keeper.old keeper.new }
    ensures good { OnOk result (AreRowsGood (rows_of rows.old.entries) → AreRowsGood (rows_of rows.new.entries)) }
    ensures reads { K.reads keeper.new ≤ K.reads keeper.old + 4 }
    ensures cause { HasCountCause (K.faults keeper.old) (K.faults keeper.new) result }
    ensures outside { IfErr result IsOutside }
{
    let Some(row) = rows.get(&cell.hash) else {
        return Ok(());
    };
    if row.stored.is_some() {
        return Ok(());
    }
    let (kids, refs) = kid_hashes(&cell.face);
    give_references(alloc, rows, keeper, &kids[..refs])
}

/// Gives the children of all listed cells that aren't stored one reference for each place.
pub fn give_all_kids<'a, K: Keeper>(
    alloc: Global,
    rows: &mut Rows<'a>,
    keeper: &mut K,
    cells: &[NewCell],
) -> Result<(), CountFault>
    ensures given { OnOk result (IfSome (K.held keeper.old) (λ contents.
        AreGiven (stored_in contents) rows.old (due_of (stored_in contents) rows.old cells.now) rows.new)) }
    ensures keeps { KeepsHeld K.held K.trail K.batches keeper.old keeper.new }
    ensures good { OnOk result (AreRowsGood (rows_of rows.old.entries) → AreRowsGood (rows_of rows.new.entries)) }
    ensures reads { K.reads keeper.new ≤ K.reads keeper.old + 4 * length cells.now }
    ensures cause { HasCountCause (K.faults keeper.old) (K.faults keeper.new) result }
    ensures outside { IfErr result IsOutside }
{
    for cell in cells {
        give_kids(alloc, rows, keeper, cell)?;
    }
    Ok(())
}
