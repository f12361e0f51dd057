ghost use Rattle.std.specs.Prelude.{◌≡◌, ℕ, ◌+◌, ◌≤◌, List, [], length, filter, IfSome, IfOk, IfErr, OnOk};
ghost use Rattle.std.specs.List.{AllByRecursion};
ghost use Rattle.std.specs.Option.{option_map};
ghost use Rattle.cd_base.specs.declared.hash.Hash256.{Hash256};
ghost use Rattle.cd_cell.specs.Fit.{IsFaceFit};
ghost use Rattle.cd_keeper.specs.Keeping.{KeepsHeld};
ghost use Rattle.cd_world.specs.Told as told;
ghost use Rattle.cd_count.specs.Reading.{stored_in, HasCountCause};
ghost use Rattle.cd_count.specs.PlanRows.{rows_of};
ghost use Rattle.cd_count.specs.PlanGiving.{is_another, rises_over, AreRowsGood, AreListed};
ghost use Rattle.std.specs.Prelude.{◌*◌, ◌∷◌, find};
ghost use Rattle.std.specs.Option.{option_map_or};
ghost use Rattle.std.specs.BTreeMap as tree;
ghost use Rattle.cd_cell.specs.Tree.{Tree, rep_of};
ghost use Rattle.cd_cell.specs.Export.{hash_cmp};
ghost use Rattle.cd_world.specs.World.{Block, World};
ghost use Rattle.cd_world.specs.Told.{ToldWorld, shown};
ghost use Rattle.cd_count.specs.declared.count_fault.CountFault.TheVariants.{Clash};
ghost use Rattle.cd_count.specs.Bringing.{unheld, IsBrought, HaveCome};
ghost use Rattle.cd_count.specs.Limits.{within_limit};
ghost use Rattle.cd_count.specs.SoundContents.{AreSoundContents};
ghost use Rattle.cd_count.specs.Clashes.{IsOutside};

use crate::count_fault::CountFault;
use crate::giving::{give_all_kids, give_reference, list_cell};
use crate::rows::{Row, Rows};
use cd_base::Hash256;
use cd_cell::NewCell;
use cd_keeper::Keeper;
use std::alloc::Global;

/// The cell with the lesser hash.
fn lesser<'a>(cell: &'a NewCell, other: Option<&'a NewCell>) -> &'a NewCell
    ensures { (H : List ℕ → Hash256) → result.now ≡ told.lesser H cell.now (option_map (λ r. r.now) other.entry) }
{
    match other {
        Some(other) => {
            if other.hash.0.cmp(&cell.hash.0).is_lt() {
                other
            } else {
                cell
            }
        }
        None => cell,
    }
}

/// Makes the rows of listed cells, and gives the one with the least hash under which another is stored.
pub fn list_cells<'a, K: Keeper>(
    alloc: Global,
    rows: &mut Rows<'a>,
    keeper: &mut K,
    cells: &'a [NewCell],
) -> Result<Option<&'a NewCell>, CountFault>
    requires fit { AllByRecursion (λ c. IsFaceFit c.face) cells.now }
    ensures listed { OnOk result (IfSome (K.held keeper.old) (λ contents.
        AreListed (stored_in contents) [] rows.old → AreListed (stored_in contents) cells.now rows.new)) }
    ensures least { IfOk result (λ least. IfSome (K.held keeper.old) (λ contents. (H : List ℕ → Hash256)
        → option_map (λ r. r.now) least
        ≡ told.least H (filter (λ c. is_another (stored_in contents c.hash.0) c.face) cells.now))) }
    ensures keeps { KeepsHeld K.held K.trail K.batches keeper.old keeper.new }
    ensures good { OnOk result (AreRowsGood (rows_of rows.old.entries) → AreRowsGood (rows_of rows.new.entries)) }
    ensures reads { K.reads keeper.new ≤ K.reads keeper.old + length cells.now }
    ensures cause { HasCountCause (K.faults keeper.old) (K.faults keeper.new) result }
    ensures outside { IfErr result IsOutside }
{
    let mut least = None;
    let mut place = cells.len();
    while place > 0 {
        place -= 1;
        let cell = &cells[place];
        if list_cell(alloc, rows, keeper, cell)? {
            least = Some(lesser(cell, least));
        }
    }
    Ok(least)
}

/// The fault of a listed cell whose hash has another cell stored.
pub fn clash_of(rows: &Rows, cell: &NewCell) -> CountFault
    ensures { result ≡ Clash cell.now.hash
        (option_map_or (λ row. row.face) (tree.get hash_cmp rows.now cell.now.hash) cell.now.face) cell.now.face }
{
    let stored = match rows.get(&cell.hash) {
        Some(row) => *row.face.get(),
        None => cell.face,
    };
    CountFault::Clash {
        hash: cell.hash,
        stored,
        offered: cell.face,
    }
}

/// Whether the count of a row rises over the limit.
fn is_over(row: &Row, limit: u64) -> bool
    ensures { result ≡ rises_over limit row.now }
{
    row.count > limit && row.count > row.stored.unwrap_or(0)
}

/// Refuses the least hash whose count rises over the limit.
pub fn check_limit(rows: &Rows, limit: u64) -> Result<(), CountFault>
    ensures { result ≡ within_limit (find (λ e. rises_over limit e.1) rows.now.entries) }
{
    for (hash, row) in rows.iter() {
        if is_over(row, limit) {
            return Err(CountFault::CountFull {
                hash: *hash,
                count: row.count,
            });
        }
    }
    Ok(())
}

/// The rows once a block with the value's tree comes.
pub fn add_rows<'a, K: Keeper>(
    alloc: Global,
    rows: &mut Rows<'a>,
    keeper: &mut K,
    cells: &[NewCell],
    root: &Hash256,
) -> Result<(), CountFault>
    ensures given { OnOk result (IfSome (K.held keeper.old) (λ contents. (H : List ℕ → Hash256) (old : ToldWorld)
        (grown : World) (block : Block) (listed : List Tree)
        → AreSoundContents H old contents → IsBrought H (shown old) grown block cells.now listed
        → AreListed (stored_in contents) cells.now rows.old → rep_of H block.state ≡ root.now
        → HaveCome H (shown old) grown block (unheld H (shown old) listed) (rows_of rows.new.entries))) }
    ensures keeps { KeepsHeld K.held K.trail K.batches keeper.old keeper.new }
    ensures good { OnOk result (AreRowsGood (rows_of rows.old.entries) → AreRowsGood (rows_of rows.new.entries)) }
    ensures reads { K.reads keeper.new ≤ K.reads keeper.old + (4 * length cells.now + 1) }
    ensures cause { HasCountCause (K.faults keeper.old) (K.faults keeper.new) result }
    ensures outside { IfErr result IsOutside }
{
    give_all_kids(alloc, rows, keeper, cells)?;
    give_reference(alloc, rows, keeper, root)?;
    Ok(())
}
