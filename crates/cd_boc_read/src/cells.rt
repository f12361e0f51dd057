ghost use Rattle.std.specs.Prelude.{◌≡◌, ◌↔◌, ◌<◌, ◌≤◌, [], ◌++◌, All, IsTrue, length, None, Some, IfOk, IfErr, if◌then◌else◌};
ghost use Rattle.cd_cell.specs.Masks.{is_significant};
ghost use Rattle.cd_cell.specs.Levels.{info_of_face};
ghost use Rattle.cd_cell.specs.StoredText.{stored_hashes, stored_depths, stored_text};
ghost use Rattle.cd_boc_read.specs.Views.{text_view, text_views, refs_view, face_among, IsBehind};
ghost use Rattle.cd_boc_read.specs.CellFaults.{faces_of_texts, infos_of_texts, stores_pruned, is_shown, cell_fault, fault_of_cells};
ghost use Rattle.cd_boc_read.specs.BagFaults.{AreTexts, Answers};

use crate::BagFault;
use crate::cell_text::CellText;
use cd_cell::{ChildInfo, Face, Hash32, MOST_CELLS, face_info};
use std::alloc::Global;

/// The faces of the cells of a bag, and what they show of themselves.
#[derive(Drop)]
pub(crate) struct Cells {
    pub faces: Vec<Face>,
    pub infos: Vec<ChildInfo>,
}

/// The faces of cells whose children stand behind them, from the last cell downwards, or the first fault on that way.
pub(crate) fn cells_of<H: Hash32>(alloc: Global, texts: &[CellText]) -> Result<Cells, BagFault>
    requires some { 0 < length texts.now }
    requires few { length texts.now ≤ MOST_CELLS }
    requires texts { AreTexts (text_views texts.now) }
    ensures faces { IfOk result
        (λ cells. cells.faces.items ≡ faces_of_texts H.digest_of (text_views texts.now)) }
    ensures infos { IfOk result
        (λ cells. cells.infos.items ≡ infos_of_texts H.digest_of (text_views texts.now)) }
    ensures exact { Answers (fault_of_cells H.digest_of (text_views texts.now)) result }
{
    let count = texts.len();
    // Faces are put together where they lie: one takes about 700 bytes.
    let mut faces = vec![in alloc; Face::new(false, texts[0].bits, &[]); count]?;
    let mut infos = vec![in alloc; ChildInfo::NONE; count]?;
    let mut left = count;
    while left > 0 {
        left -= 1;
        let text = &texts[left];
        let face = &mut faces[left];
        put_face(face, text, infos.as_slice());
        match info_of::<H>(left as u32, text, face) {
            Ok(info) => infos[left] = info,
            Err(fault) => return Err(fault),
        }
    }
    Ok(Cells { faces, infos })
}

/// Puts together the face of a cell, by what all cells show, where an empty one stands.
fn put_face(face: &mut Face, text: &CellText, infos: &[ChildInfo])
    requires bare { face.old.kids ≡ [] }
    requires few { length (refs_view text.now) ≤ 4 }
    requires there { All (λ number. number < length infos.now) (refs_view text.now) }
    ensures { face.new ≡ face_among infos.now text.now }
{
    face.set_data(text.exotic, &text.bits);
    for child in text.children() {
        face.push(&infos[*child as usize]);
    }
}

/// What a cell shows of itself, or its first fault.
fn info_of<H: Hash32>(number: u32, text: &CellText, face: &Face) -> Result<ChildInfo, BagFault>
    ensures sound { IfOk result
        (λ _. cell_fault H.digest_of number (text_view text.now) face.now ≡ None) }
    ensures fault { IfErr result
        (λ fault. cell_fault H.digest_of number (text_view text.now) face.now ≡ Some fault) }
    ensures info { IfOk result (λ info. info ≡ info_of_face H.digest_of face.now) }
{
    if stores_pruned(text, face) {
        return Err(BagFault::PrunedHashes { cell: number });
    }
    if let Err(fault) = face.check() {
        return Err(BagFault::Cell {
            cell: number,
            fault,
        });
    }
    let info = face_info::<H>(face);
    if info.mask != text.mask {
        return Err(BagFault::MaskDiffers { cell: number });
    }
    if !shows(text, &info) {
        return Err(BagFault::StoredHash { cell: number });
    }
    Ok(info)
}

/// Whether hashes are stored of an exotic cell whose first byte is that of a pruned branch.
fn stores_pruned(text: &CellText, face: &Face) -> bool
    ensures { result ≡ stores_pruned (text_view text.now) face.now }
{
    if !text.exotic {
        return false;
    }
    if text.stored.is_none() {
        return false;
    }
    match face.bits().data() {
        [first, ..] => *first == 1,
        [] => false,
    }
}

/// Whether what is stored of the cell, if anything is, is what it shows.
fn shows(text: &CellText, info: &ChildInfo) -> bool
    ensures { result ≡ is_shown (text_view text.now).stored info.now }
{
    match text.stored {
        None => true,
        Some(stored) => are_shown(stored, info),
    }
}

/// Whether these are the hashes and depths at the significant levels.
fn are_shown(stored: &[u8], info: &ChildInfo) -> bool
    ensures { IsTrue result ↔ (stored.now ≡ stored_text info.now) }
{
    let Some(rest) = behind_hashes(stored, info) else {
        return false;
    };
    let Some(rest) = behind_depths(rest, info) else {
        return false;
    };
    rest.is_empty()
}

/// What is left behind the hashes at the significant levels, where the bytes begin with them.
fn behind_hashes<'a>(bytes: &'a [u8], info: &ChildInfo) -> Option<&'a [u8]>
    ensures { IsBehind bytes.now (stored_hashes info.now) result }
{
    let zero = info.hash_at(0);
    let one = info.hash_at(1);
    let two = info.hash_at(2);
    let three = info.hash_at(3);
    behind(
        bytes,
        if_significant(info, 0, &zero.0),
        if_significant(info, 1, &one.0),
        if_significant(info, 2, &two.0),
        if_significant(info, 3, &three.0),
    )
}

/// What is left behind the depths at the significant levels, where the bytes begin with them.
fn behind_depths<'a>(bytes: &'a [u8], info: &ChildInfo) -> Option<&'a [u8]>
    ensures { IsBehind bytes.now (stored_depths info.now) result }
{
    let zero = info.depth_at(0).to_be_bytes();
    let one = info.depth_at(1).to_be_bytes();
    let two = info.depth_at(2).to_be_bytes();
    let three = info.depth_at(3).to_be_bytes();
    behind(
        bytes,
        if_significant(info, 0, &zero),
        if_significant(info, 1, &one),
        if_significant(info, 2, &two),
        if_significant(info, 3, &three),
    )
}

/// What a cell shows at a level, where the level is significant, and else nothing.
fn if_significant<'a>(info: &ChildInfo, level: u8, piece: &'a [u8]) -> &'a [u8]
    requires { level ≤ 3 }
    ensures { result.now ≡ (if is_significant info.now.mask level then piece.now else []) }
{
    if info.mask.significant(level) {
        piece
    } else {
        &[]
    }
}

/// What is left behind four pieces, where the bytes begin with them.
fn behind<'a>(bytes: &'a [u8], a: &[u8], b: &[u8], c: &[u8], d: &[u8]) -> Option<&'a [u8]>
    ensures { IsBehind bytes.now (a.now ++ (b.now ++ (c.now ++ d.now))) result }
{
    let Some(one) = bytes.strip_prefix(a) else {
        return None;
    };
    let Some(two) = one.strip_prefix(b) else {
        return None;
    };
    let Some(three) = two.strip_prefix(c) else {
        return None;
    };
    three.strip_prefix(d)
}
