ghost use Rattle.std.specs.Prelude.{◌≡◌, ◌<◌, ℕ, List, Option, Some, length, map, All, IfOk};
ghost use Rattle.std.specs.List.{AllByRecursion};
ghost use Rattle.cd_base.specs.declared.hash.Hash256.{Hash256};
ghost use Rattle.cd_cell.specs.declared.info.ChildInfo.{ChildInfo};
ghost use Rattle.cd_cell.specs.Export.{distinct_cells};
ghost use Rattle.cd_cell.specs.GoodFace.{IsGoodFace};
ghost use Rattle.cd_cell.specs.Listings.{new_cell_of};
ghost use Rattle.cd_cell.specs.Tree.{Tree, info_of};
ghost use Rattle.cd_slices.specs.Gathering.{AreWhole, IsGathered, cell_in};

use crate::gather::Gathered;
use cd_cell::{ExportRank, Face, NewCell};
use std::alloc::{AllocError, Global};
use std::collections::BTreeMap;

/// The cells that were found, in the order of an export.
pub fn listed(alloc: Global, all: &Gathered) -> Result<Vec<NewCell>, AllocError>
    requires whole { IsGathered all.now }
    requires done { length all.now.faces.items ≡ length all.now.hashes.items }
    ensures count { IfOk result (λ cells. length cells.items ≡ length all.now.faces.items) }
    ensures good { IfOk result (λ cells. All (λ c. IsGoodFace c.face) cells.items) }
    ensures tree { IfOk result (λ cells. (H : List ℕ → Hash256) (told : Option Tree) (root : ChildInfo) (t : Tree)
        → AreWhole H told root all.now → told ≡ Some t → root ≡ info_of H t
        → cells.items ≡ map (new_cell_of H) (distinct_cells H t)) }
{
    cells_of(alloc, &all.places, &all.faces)
}

// The cells in these places, in the order of their ranks.
fn cells_of(
    alloc: Global,
    places: &BTreeMap<ExportRank, usize>,
    faces: &[Face],
) -> Result<Vec<NewCell>, AllocError>
    requires { AllByRecursion (λ e. e.1 < length faces.now) places.now.entries }
    ensures { IfOk result (λ cells. cells.items ≡ map (cell_in faces.now) places.now.entries) }
{
    let mut cells = Vec::with_capacity(alloc, places.len())?;
    for (rank, place) in places {
        cells.push(NewCell {
            hash: rank.hash,
            face: faces[*place],
        })?;
    }
    Ok(cells)
}
