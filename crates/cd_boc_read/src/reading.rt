ghost use Rattle.std.specs.Prelude.{◌≡◌, ◌<◌, ◌≤◌, length, map, IfOk};
ghost use Rattle.cd_cell.specs.Bags.{bag_trees};
ghost use Rattle.cd_boc_read.specs.Grammar.{IsBagOf, Spells};
ghost use Rattle.cd_boc_read.specs.Places.{stated_cells};
ghost use Rattle.cd_boc_read.specs.CellFaults.{faces_of_texts, fault_of_texts};
ghost use Rattle.cd_boc_read.specs.BagFaults.{AreTexts, bag_fault, Answers};
ghost use Rattle.cd_boc_read.specs.Views.{text_views, bag_view, roots_unfolded};

use crate::BagFault;
use crate::bag_text::{BagText, bag_at};
use crate::cell_text::CellText;
use crate::cells::cells_of;
use cd_cell::{Bag, Face, Hash32, MOST_CELLS, least_clash};
use std::alloc::{AllocError, Global};

/// The cells of a bag of cells, and its roots (TL-B, `serialized_boc`): at most 1,048,576 cells, and at least one
/// root. Where the bytes are no bag, the first fault in the order of reading.
pub fn read_bag<H: Hash32>(alloc: Global, bytes: &[u8]) -> Result<Bag<H>, BagFault>
    ensures found { IfOk result (λ bag. Spells H.digest_of bytes.now (bag_trees bag)) }
    ensures exact { Answers (bag_fault H.digest_of bytes.now) result }
    ensures counted { IfOk result (λ bag. length bag.cells ≡ stated_cells bytes.now) }
    ensures few { IfOk result (λ bag. length bag.cells ≤ MOST_CELLS) }
    ensures rooted { IfOk result (λ bag. 1 ≤ length bag.roots) }
{
    let bag = bag_at(alloc, bytes)?;
    bag_of(alloc, bag)
}

/// The bag of cells of which these are the texts, or the first fault of the cells.
fn bag_of<H: Hash32>(alloc: Global, bag: BagText) -> Result<Bag<H>, BagFault>
    requires { IsBagOf (bag_view bag).0 (bag_view bag).1 }
    ensures exact { Answers (fault_of_texts H.digest_of (bag_view bag.entry).1) result }
    ensures trees { IfOk result (λ out. bag_trees out ≡ roots_unfolded (bag_view bag.entry)) }
    ensures counted { IfOk result (λ out. length out.cells ≡ length (bag_view bag.entry).1) }
    ensures roots { IfOk result (λ out. out.roots ≡ (bag_view bag.entry).0.roots) }
{
    let faces = faces_of::<H>(alloc, &bag.texts)?;
    let refs = refs_of(alloc, &bag.texts)?;
    Ok(Bag::new(faces, refs, bag.frame.roots))
}

/// The faces of cells that are well-formed and free of clashes, or the first fault of all the cells.
fn faces_of<H: Hash32>(alloc: Global, texts: &[CellText]) -> Result<Vec<Face>, BagFault>
    requires some { 0 < length texts.now }
    requires few { length texts.now ≤ MOST_CELLS }
    requires texts { AreTexts (text_views texts.now) }
    ensures exact { Answers (fault_of_texts H.digest_of (text_views texts.now)) result }
    ensures faces { IfOk result
        (λ faces. faces.items ≡ faces_of_texts H.digest_of (text_views texts.now)) }
{
    let cells = cells_of::<H>(alloc, texts)?;
    match least_clash(alloc, &cells.faces, &cells.infos) {
        Ok(None) => Ok(cells.faces),
        Ok(Some(hash)) => Err(BagFault::Clash { hash }),
        Err(_) => Err(BagFault::Memory),
    }
}

/// The numbers of the children of each cell.
fn refs_of(alloc: Global, texts: &[CellText]) -> Result<Vec<[u32; 4]>, AllocError>
    ensures { IfOk result (λ refs. refs.items ≡ map (λ t. t.refs) texts.now) }
{
    let mut refs = Vec::with_capacity(alloc, texts.len())?;
    for text in texts {
        refs.push(text.refs)?;
    }
    Ok(refs)
}
