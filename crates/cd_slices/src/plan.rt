ghost use Rattle.std.specs.Prelude.{◌≡◌, ◌<◌, ◌≤◌, ℕ, length, All, Some, Err, IfOk, OnOk};
ghost use Rattle.cd_base.specs.Checksum.{crc32c};
ghost use Rattle.cd_base.specs.Numbers.{little};
ghost use Rattle.cd_cell.specs.Tree.{Tree};
ghost use Rattle.cd_cell.specs.GoodFace.{IsGoodFace};
ghost use Rattle.cd_cell.specs.Export.{distinct_cells};
ghost use Rattle.cd_boc_write.specs.Exports.{export_frame, header_of};
ghost use Rattle.cd_boc_write.specs.Frames.{body_text};
ghost use Rattle.cd_boc_write.specs.LayoutOf.{IsLayoutOf};
ghost use Rattle.cd_event.specs.Turning.{HandsOn, RisesOnly, counted};
ghost use Rattle.cd_looks.specs.Answers.{IsRootOf};
ghost use Rattle.cd_slices.specs.Faults.{is_plan_failed};
ghost use Rattle.cd_slices.specs.Planned.{IsPlanOf, IsPlanOfTree};

use crate::export::Export;
use crate::faults::PlanFault;
use crate::gather::gather;
use crate::listing::listed;
use crate::numbering::numbered;
use cd_boc_write::{Layout, WriteFault, lay_out, write_bag};
use cd_cell::{ChildInfo, MOST_CELLS, NewCell};
use cd_event::{LookFault, LookUp};
use std::alloc::Global;

impl Export {
    /// The plan of the export of the look's state, whose root shows `root`. Each distinct cell is looked at once, and
    /// no face is kept.
    pub fn plan<L: LookUp>(
        alloc: Global,
        look: &mut L,
        root: &ChildInfo,
    ) -> Result<Export, PlanFault>
        requires ready { L.ready look.old }
        requires root { IsRootOf L.Hash.digest_of (L.tree look.old) root.now }
        ensures ready { L.ready look.new }
        ensures told { L.tree look.new ≡ L.tree look.old }

        // What is planned, and when nothing is.
        ensures plan { IfOk result (λ export. (t : Tree) → L.tree look.old ≡ Some t
            → IsPlanOfTree L.Hash.digest_of t export) }
        ensures few { OnOk result ((t : Tree) → L.tree look.old ≡ Some t
            → length (distinct_cells L.Hash.digest_of t) ≤ MOST_CELLS) }
        ensures too_many { (limit : ℕ) → result ≡ Err (PlanFault.TooMany limit) → (limit ≡ MOST_CELLS)
            × ((t : Tree) → L.tree look.old ≡ Some t
            → MOST_CELLS < length (distinct_cells L.Hash.digest_of t)) }

        // What lies between two states of the look.
        ensures asked { IfOk result (λ export.
            L.asked look.new ≡ counted (L.asked look.old) (length export.layout.ends)) }
        ensures hands_on { HandsOn L.goes L.fails (is_plan_failed result) look.old look.new }
        ensures only_keeper { (fault : LookFault) → result ≡ Err (PlanFault.Look fault)
            → fault ≡ LookFault.Keeper }
        ensures faults { RisesOnly (is_plan_failed result) (L.faults look.old) (L.faults look.new) }
    {
        let gathered = gather(alloc, look, root)?;
        let cells = listed(alloc, &gathered)?;
        drop(gathered);
        let export = planned(alloc, &cells)?;
        Ok(export)
    }
}

// The plan of the export of listed cells.
fn planned(alloc: Global, cells: &[NewCell]) -> Result<Export, WriteFault>
    requires few { length cells.now ≤ MOST_CELLS }
    requires good { All (λ c. IsGoodFace c.face) cells.now }
    ensures plan { IfOk result (IsPlanOf cells.now) }
    ensures count { IfOk result (λ export. length export.layout.ends ≡ length cells.now) }
{
    let layout = lay_out(alloc, cells)?;
    let (head, crc) = frame_of(alloc, cells, &layout)?;
    let planned = numbered(alloc, cells, &layout)?;
    Ok(Export {
        cells: planned,
        layout,
        head,
        crc,
    })
}

// What stands before the cell data of the export text, and the checksum that ends it.
fn frame_of(
    alloc: Global,
    cells: &[NewCell],
    layout: &Layout,
) -> Result<(Vec<u8>, [u8; 4]), WriteFault>
    requires few { length cells.now ≤ MOST_CELLS }
    requires good { All (λ c. IsGoodFace c.face) cells.now }
    requires laid { IsLayoutOf cells.now layout.now }
    ensures head { IfOk result (λ frame. frame.0.items ≡ header_of (export_frame cells.now)) }
    ensures crc { IfOk result (λ frame. frame.1 ≡ little 4 (crc32c (body_text (export_frame cells.now)))) }
{
    let text = write_bag(alloc, cells)?;
    let head = text[..layout.header_len as usize].to_vec(alloc)?;
    match text.split_last_chunk::<4>() {
        Some((_, crc)) => Ok((head, *crc)),
        None => unreachable!(),
    }
}
