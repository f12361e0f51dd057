ghost use Rattle.std.specs.Prelude.{◌≡◌, ℕ, ◌*◌, ◌≤◌, ◌++◌, List, length, map, All, IfOk, OnOk};
ghost use Rattle.cd_base.specs.declared.hash.Hash256.{Hash256};
ghost use Rattle.cd_cell.specs.declared.new_cell.NewCell.{NewCell};
ghost use Rattle.cd_cell.specs.GoodFace.{IsGoodFace};
ghost use Rattle.cd_cell.specs.Tree.{Tree};
ghost use Rattle.cd_cell.specs.Export.{distinct_cells};
ghost use Rattle.cd_cell.specs.Listings.{new_cell_of};
ghost use Rattle.cd_boc_write.specs.CellTexts.{texts_text, ends_from};
ghost use Rattle.cd_boc_write.specs.Exports.{width_of, export_texts, export_text, bag_of};
ghost use Rattle.cd_boc_write.specs.Keys.{AreKeysOf};
ghost use Rattle.cd_boc_write.specs.Layouts.{data_len};
ghost use Rattle.cd_boc_write.specs.LayoutOf.{IsLayoutOf};

use crate::cell_text::{put_cell, text_len};
use crate::layout::{Layout, last_end};
use crate::numbers::width_of;
use crate::placed_hash::PlacedHash;
use crate::places::{keys_of, refs_of};
use crate::write_fault::WriteFault;
use cd_base::crc32c;
use cd_cell::{Listed, MOST_CELLS, NewCell};
use std::alloc::{AllocError, Global};

/// The layout of the export text of some cells.
pub fn lay_out(alloc: Global, cells: &[NewCell]) -> Result<Layout, WriteFault>
    requires few { length cells.now ≤ MOST_CELLS }
    requires good { All (λ c. IsGoodFace c.face) cells.now }
    ensures { IfOk result (λ layout. IsLayoutOf cells.now layout) }
{
    let size = width_of(cells.len() as u64);
    let ends = ends_of(alloc, cells, size)?;
    let total = last_end(&ends);
    let off_bytes = width_of(total);
    let numbers = 4 * u64::from(size) + u64::from(off_bytes) * (1 + cells.len() as u64);
    Ok(Layout {
        size,
        off_bytes,
        header_len: 6 + numbers,
        ends: Listed::from(ends),
    })
}

/// The export text of some cells: with an index and a checksum, without cache bits and stored hashes, and with the
/// first cell as its one root. A child that isn't listed gets the number 0.
pub fn write_bag(alloc: Global, cells: &[NewCell]) -> Result<Vec<u8>, WriteFault>
    requires few { length cells.now ≤ MOST_CELLS }
    requires good { All (λ c. IsGoodFace c.face) cells.now }
    ensures text { IfOk result (λ text. text.items ≡ export_text cells.now) }
    ensures tree { (H : List ℕ → Hash256) (t : Tree)
        → cells.now ≡ map (new_cell_of H) (distinct_cells H t)
        → IfOk result (λ text. text.items ≡ bag_of H t) }
{
    let layout = lay_out(alloc, cells)?;
    let keys = keys_of(alloc, cells)?;
    let mut text = Vec::with_capacity(alloc, layout.total() as usize)?;
    layout.put_header(&mut text)?;
    put_cells(&mut text, cells, &keys, layout.size)?;
    let crc = crc32c(&text);
    text.extend_from_slice(&crc.to_le_bytes())?;
    Ok(text)
}

// Adds the texts of all cells, whose children are looked up by the cells' keys.
fn put_cells(
    text: &mut Vec<u8>,
    cells: &[NewCell],
    keys: &[PlacedHash],
    size: u8,
) -> Result<(), WriteFault>
    requires few { length cells.now ≤ MOST_CELLS }
    requires good { All (λ c. IsGoodFace c.face) cells.now }
    requires keys { AreKeysOf cells.now keys.now }
    requires size { size ≡ width_of (length cells.now) }
    ensures { OnOk result
        (text.new.items ≡ text.old.items ++ texts_text size (export_texts cells.now)) }
{
    for cell in cells {
        let refs = refs_of(keys, cell.face.kids());
        put_cell(text, &cell.face, &refs[..cell.face.refs() as usize], size)?;
    }
    Ok(())
}

// The ends of the cells' texts.
fn ends_of(alloc: Global, cells: &[NewCell], size: u8) -> Result<Vec<u64>, AllocError>
    requires few { length cells.now ≤ MOST_CELLS }
    requires good { All (λ c. IsGoodFace c.face) cells.now }
    requires size { size ≤ 4 }
    ensures ends { IfOk result (λ ends. ends.items ≡ ends_from size 0 (export_texts cells.now)) }
    ensures low { IfOk result (λ ends. data_len ends.items ≤ 146 * length cells.now) }
{
    let mut ends = Vec::with_capacity(alloc, cells.len())?;
    let mut end = 0;
    for cell in cells {
        end += text_len(&cell.face, size);
        ends.push(end)?;
    }
    Ok(ends)
}
