ghost use Rattle.std.specs.Prelude.{◌≡◌, ◌<◌, length, map, All, IfOk};
ghost use Rattle.cd_cell.specs.GoodFace.{IsGoodFace};
ghost use Rattle.cd_cell.specs.Tree.{Tree};
ghost use Rattle.cd_cell.specs.Export.{distinct_cells};
ghost use Rattle.cd_cell.specs.Listings.{new_cell_of};
ghost use Rattle.cd_boc_write.specs.Exports as export;
ghost use Rattle.cd_feed.specs.Feeds.{IsBagFit};
ghost use Rattle.cd_gen.specs.States.{sha};
ghost use Rattle.cd_gen.specs.Listing.{faces, faces_of};
ghost use Rattle.cd_gen.specs.Keys.{AreKeys, listed_cell, cell_at};

use crate::cell::Cell;
use cd_base::Memory;
use cd_boc_write::write_bag;
use cd_cell::{ExportKey, MOST_CELLS, NewCell, sort_keys};
use cd_feed::Bytes;
use std::alloc::{AllocError, Global};

/// The greatest length of a bag in a feed.
const MOST_BAG: usize = 67_108_864;

/// The bag of the tree of these cells: each of those of equal hash and height once, in the order of an export.
pub fn bag_of(alloc: Global, cells: &[Cell]) -> Result<Bytes, Memory>
    ensures short { IfOk result (λ bag. IsBagFit bag) }
    ensures tree { (t : Tree) → faces cells.now ≡ faces_of t
        → IfOk result (λ bag. bag ≡ export.bag_of sha t) }
{
    let listed = in_order(alloc, cells)?;
    // Neither is ever so.
    if listed.len() > MOST_CELLS as usize {
        return Err(Memory);
    }
    let Ok(bag) = write_bag(alloc, &listed) else {
        return Err(Memory);
    };
    if bag.len() > MOST_BAG {
        return Err(Memory);
    }
    Ok(Bytes::from(bag))
}

/// The cells in the order of an export.
fn in_order(alloc: Global, cells: &[Cell]) -> Result<Vec<NewCell>, AllocError>
    ensures good { IfOk result (λ listed. All (λ c. IsGoodFace c.face) listed.items) }
    ensures tree { (t : Tree) → faces cells.now ≡ faces_of t
        → IfOk result (λ listed. listed.items ≡ map (new_cell_of sha) (distinct_cells sha t)) }
{
    let mut keys = keys_of(alloc, cells)?;
    sort_keys(&mut keys);
    cells_of(alloc, cells, &keys)
}

/// The cells of these keys.
fn cells_of(alloc: Global, cells: &[Cell], keys: &[ExportKey]) -> Result<Vec<NewCell>, AllocError>
    requires { All (λ key. key.number < length cells.now) keys.now }
    ensures { IfOk result (λ listed. listed.items ≡ map (cell_at cells.now) keys.now) }
{
    let mut listed = Vec::with_capacity(alloc, keys.len())?;
    for key in keys {
        listed.push(new_cell(&cells[key.number]))?;
    }
    Ok(listed)
}

/// A cell under its hash.
fn new_cell(cell: &Cell) -> NewCell
    ensures { result ≡ listed_cell cell.now }
{
    NewCell {
        hash: cell.info.rep(),
        face: cell.face,
    }
}

fn keys_of(alloc: Global, cells: &[Cell]) -> Result<Vec<ExportKey>, AllocError>
    ensures { IfOk result (λ keys. AreKeys (map (λ c. c.info) cells.now) keys.items (length cells.now)) }
{
    let mut keys = Vec::with_capacity(alloc, cells.len())?;
    for (number, cell) in cells.iter().enumerate() {
        keys.push(ExportKey::of(&cell.info, number))?;
    }
    Ok(keys)
}
