ghost use Rattle.std.specs.Prelude.{◌≡◌, ◌<◌, ◌≤◌, ℕ, List, length, slice_index_or, All, IfOk};
ghost use Rattle.cd_cell.specs.GoodFace.{IsGoodFace};
ghost use Rattle.cd_cell.specs.Infos.{rep_of_info};
ghost use Rattle.cd_cell.specs.declared.info.ChildInfo.{ChildInfo};
ghost use Rattle.cd_cell.specs.declared.new_cell.NewCell.{NewCell};
ghost use Rattle.cd_boc_write.specs.Exports.{place_among};
ghost use Rattle.cd_boc_write.specs.Keys.{AreKeysOf};
ghost use Rattle.cd_boc_write.specs.LayoutOf.{IsLayoutOf};
ghost use Rattle.cd_slices.specs.Planned.{AreRefsOf};
ghost use Rattle.cd_slices.specs.Numbering.{AreNumbered};

use crate::export::PlannedCell;
use cd_boc_write::{Layout, PlacedHash, keys_of, place_among};
use cd_cell::{ChildInfo, MOST_CELLS, NewCell};
use std::alloc::{AllocError, Global};

/// The cells' hashes and the numbers of their children, which are written as the layout says.
pub fn numbered(
    alloc: Global,
    cells: &[NewCell],
    layout: &Layout,
) -> Result<Vec<PlannedCell>, AllocError>
    requires few { length cells.now ≤ MOST_CELLS }
    requires good { All (λ c. IsGoodFace c.face) cells.now }
    requires laid { IsLayoutOf cells.now layout.now }
    ensures { IfOk result (λ planned. AreNumbered cells.now layout.now.size (length cells.now) planned.items) }
{
    let keys = keys_of(alloc, cells)?;
    let mut planned = Vec::with_capacity(alloc, cells.len())?;
    for cell in cells {
        planned.push(planned_cell(&keys, cell))?;
    }
    Ok(planned)
}

// A cell's hash, and the numbers of its children among the cells of the keys.
fn planned_cell(keys: &[PlacedHash], cell: &NewCell) -> PlannedCell
    requires { length cell.now.face.kids ≤ 4 }
    ensures hash { result.hash ≡ cell.now.hash }
    ensures refs { (cells : List NewCell) → AreKeysOf cells keys.now → AreRefsOf cells cell.now result }
    ensures low { (cells : List NewCell) → AreKeysOf cells keys.now → 0 < length cells
        → All (λ number. number < length cells) result.refs }
{
    let kids = cell.face.kids();
    PlannedCell {
        hash: cell.hash,
        refs: [
            number_of(keys, kids, 0),
            number_of(keys, kids, 1),
            number_of(keys, kids, 2),
            number_of(keys, kids, 3),
        ],
    }
}

// The number of the child in a place, or 0 where there is none.
fn number_of(keys: &[PlacedHash], kids: &[ChildInfo], place: usize) -> u32
    ensures value { (cells : List NewCell) (d : ChildInfo) → AreKeysOf cells keys.now
        → place < length kids.now
        → result ≡ place_among cells (rep_of_info (slice_index_or kids.now place d)) }
    ensures low { (cells : List NewCell) → AreKeysOf cells keys.now → 0 < length cells
        → result < length cells }
{
    match kids.get(place) {
        Some(kid) => place_among(keys, &kid.rep()),
        None => 0,
    }
}
