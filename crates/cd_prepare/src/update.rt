ghost use Rattle.std.specs.Prelude.{◌≡◌, length, map, Contains, Some, None, IfOk};
ghost use Rattle.cd_cell.specs.FaceView.{FaceView};
ghost use Rattle.cd_cell.specs.Infos.{rep_of_info};
ghost use Rattle.cd_cell.specs.Levels.{info_of_face};
ghost use Rattle.cd_cell.specs.GoodFace.{IsGoodFace};
ghost use Rattle.cd_cell.specs.Tree.{Tree};
ghost use Rattle.cd_cell.specs.Listings.{IsValid};
ghost use Rattle.cd_cell.specs.Clashes.{clash_of};
ghost use Rattle.cd_update.specs.Pairing.{AreOf};
ghost use Rattle.cd_update.specs.UpdateTrees.{tree_of};
ghost use Rattle.cd_prepare.specs.NewCells.{AreKeys, AreListed};
ghost use Rattle.cd_prepare.specs.States.{Answers};
ghost use Rattle.cd_prepare.specs.Applied.{stated_old, stated_new, clash_fault, faces_fault, update_fault, IsUpdateApplied};

use crate::PrepareFault;
use crate::listing::cells_of;
use cd_cell::{ChildInfo, ExportKey, Face, Hash32, NewCell, Prepared, least_clash, sort_keys};
use cd_update::{Update, graft, pair_old};
use std::alloc::{AllocError, Global};

/// The keys of cells by what they show.
fn keys_of(alloc: Global, infos: &[ChildInfo]) -> Result<Vec<ExportKey>, AllocError>
    ensures { IfOk result (λ keys. AreKeys infos.now keys.items (length infos.now)) }
{
    let mut keys = Vec::with_capacity(alloc, infos.len())?;
    for (number, info) in infos.iter().enumerate() {
        keys.push(ExportKey::of(info, number))?;
    }
    Ok(keys)
}

/// Cells without clashes in the order of an export.
fn listing_of<H: Hash32>(
    alloc: Global,
    faces: &[Face],
    infos: &[ChildInfo],
) -> Result<Vec<NewCell>, AllocError>
    requires shown { infos.now ≡ map (info_of_face H.digest_of) faces.now }
    requires good { (face : FaceView) → Contains faces.now face → IsGoodFace face }
    requires clear { clash_of H.digest_of faces.now ≡ None }
    ensures { IfOk result (λ cells. AreListed H.digest_of faces.now cells.items) }
{
    let mut keys = keys_of(alloc, infos)?;
    sort_keys(&mut keys);
    cells_of(alloc, faces, &keys)
}

/// New cells in the order of an export, or the least hash that two of them share.
pub(crate) fn new_cells<H: Hash32>(
    alloc: Global,
    faces: &[Face],
    infos: &[ChildInfo],
) -> Result<Vec<NewCell>, PrepareFault>
    requires shown { infos.now ≡ map (info_of_face H.digest_of) faces.now }
    requires good { (face : FaceView) → Contains faces.now face → IsGoodFace face }
    ensures exact { Answers (clash_fault H.digest_of faces.now) result }
    ensures cells { IfOk result (λ cells. AreListed H.digest_of faces.now cells.items) }
{
    if infos.len() > u32::MAX as usize {
        return Err(PrepareFault::Memory);
    }
    match least_clash(alloc, faces, infos) {
        Ok(None) => {}
        Ok(Some(hash)) => return Err(PrepareFault::NewClash { hash }),
        Err(_) => return Err(PrepareFault::Memory),
    }
    match listing_of::<H>(alloc, faces, infos) {
        Ok(cells) => Ok(cells),
        Err(_) => Err(PrepareFault::Memory),
    }
}

/// The prepared value of an update over an old tree: its new cells. `root` is what the old tree's root shows, and
/// `faces` has for each hash that the update wants the face that was found for it.
pub fn prepare_update<H: Hash32>(
    alloc: Global,
    update: &Update<'_, H>,
    root: &ChildInfo,
    faces: &[Option<Face>],
) -> Result<Prepared<H>, PrepareFault>
    ensures old { IfOk result (λ value. value.old ≡ Some (stated_old H.digest_of (tree_of update.now))) }
    ensures rep { IfOk result (λ value. rep_of_info value.root ≡ stated_new H.digest_of (tree_of update.now)) }
    ensures refused { Answers (faces_fault H.digest_of (tree_of update.now) root.now faces.now) result }

    // Over an old tree the answer is that of the tree.
    ensures exact { (t : Tree) → AreOf H.digest_of t (tree_of update.now) root.now faces.now
        → Answers (update_fault H.digest_of (tree_of update.now) t) result }
    ensures applied { (t : Tree) → AreOf H.digest_of t (tree_of update.now) root.now faces.now
        → IfOk result (λ value. IsUpdateApplied H.digest_of (tree_of update.now) t value.root value.cells) }

    // What is prepared keeps what every prepared value does.
    ensures valid { IfOk result (λ value. IsValid H.digest_of value.root value.cells) }
{
    let known = match pair_old(alloc, update, root, faces) {
        Ok(known) => known,
        Err(fault) => return Err(PrepareFault::from(fault)),
    };
    let new = match graft(alloc, update, &known) {
        Ok(new) => new,
        Err(fault) => return Err(PrepareFault::from(fault)),
    };
    match new_cells::<H>(alloc, new.cells.as_slice(), new.infos.as_slice()) {
        Ok(cells) => Ok(Prepared::new(Some(root.hash_at(0)), new.root, cells)),
        Err(fault) => Err(fault),
    }
}
