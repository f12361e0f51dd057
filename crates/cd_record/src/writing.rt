ghost use Rattle.std.specs.Prelude.{◌≡◌, ◌∷◌, ◌++◌, ◌^◌, ◌<◌, ◌≤◌, [], length, OnOk, IfOk, if◌then◌else◌};
ghost use Rattle.std.specs.List.{flat_map};
ghost use Rattle.cd_cell.specs.Masks.{is_significant};
ghost use Rattle.cd_cell.specs.Fit.{IsFaceFit};
ghost use Rattle.cd_cell.specs.StoredText.{hash_text, depth_text, stored_hashes, stored_depths};
ghost use Rattle.cd_record.specs.RecordText.{kid_text, face_text, record_text, record_text_v1};

use crate::limits::GREATEST_COUNT;
use crate::record::Record;
use cd_base::Memory;
use cd_cell::{ChildInfo, Face};
use std::alloc::{AllocError, Global};

/// The one text of a record, of version 2.
pub fn encode(alloc: Global, cell_record: &Record) -> Result<Vec<u8>, Memory>
    requires some { 1 ≤ cell_record.now.count }
    requires few { cell_record.now.count ≤ GREATEST_COUNT }
    requires fit { IsFaceFit cell_record.now.face }
    ensures { IfOk result (λ text. text.items
        ≡ record_text cell_record.now.count cell_record.now.face) }
{
    encode_cell(alloc, cell_record.count, &cell_record.face)
}

/// The one text, of version 2, of the record of a count and a face, which isn't copied.
#[tactic(auto, unfolding(crate::specs::RecordText::record_text))]
pub fn encode_cell(alloc: Global, count: u64, face: &Face) -> Result<Vec<u8>, Memory>
    requires some { 1 ≤ count }
    requires few { count ≤ GREATEST_COUNT }
    requires fit { IsFaceFit face.now }
    ensures { IfOk result (λ text. text.items ≡ record_text count face.now) }
{
    let text = text_of(alloc, 2, &count.to_be_bytes(), face)?;
    Ok(text)
}

/// The one text of a record in version 1, which is read beside version 2. The store itself writes no such record.
#[tactic(auto, unfolding(crate::specs::RecordText::record_text_v1))]
pub fn encode_v1(alloc: Global, cell_record: &Record) -> Result<Vec<u8>, Memory>
    requires some { 1 ≤ cell_record.now.count }
    requires few { cell_record.now.count < 2 ^ 32 }
    requires fit { IsFaceFit cell_record.now.face }
    ensures { IfOk result (λ text. text.items
        ≡ record_text_v1 cell_record.now.count cell_record.now.face) }
{
    let count = cell_record.count as u32;
    let text = text_of(alloc, 1, &count.to_be_bytes(), &cell_record.face)?;
    Ok(text)
}

/// A version, the bytes of a count, and a face.
fn text_of(alloc: Global, version: u8, count: &[u8], face: &Face) -> Result<Vec<u8>, AllocError>
    requires short { length count.now ≤ 8 }
    requires fit { IsFaceFit face.now }
    ensures { IfOk result (λ text. text.items ≡ version ∷ count.now ++ face_text face.now) }
{
    // Room for children of level 0, of which nearly all are.
    let len = face.bits().data().len();
    let refs = face.kids().len();
    let mut text = Vec::with_capacity(alloc, 11 + len + 35 * refs)?;
    text.push(version)?;
    text.extend_from_slice(count)?;
    put_face(&mut text, face)?;
    Ok(text)
}

/// Adds the descriptors, the data and the children of a cell.
#[tactic(auto, unfolding(crate::specs::RecordText::face_text))]
fn put_face(text: &mut Vec<u8>, face: &Face) -> Result<(), AllocError>
    requires { IsFaceFit face.now }
    ensures { OnOk result (text.new.items ≡ text.old.items ++ face_text face.now) }
{
    text.extend_from_slice(&face.descriptors(face.mask()))?;
    text.extend_from_slice(face.bits().data())?;
    put_kids(text, face.kids())?;
    Ok(())
}

/// Adds what the children show of themselves.
fn put_kids(text: &mut Vec<u8>, kids: &[ChildInfo]) -> Result<(), AllocError>
    ensures { OnOk result (text.new.items ≡ text.old.items ++ flat_map kid_text kids.now) }
{
    for kid in kids {
        put_kid(text, kid)?;
    }
    Ok(())
}

/// Adds what a child shows of itself: its mask, and hashes and depths at its significant levels.
#[tactic(auto, unfolding(crate::specs::RecordText::kid_text))]
fn put_kid(text: &mut Vec<u8>, kid: &ChildInfo) -> Result<(), AllocError>
    ensures { OnOk result (text.new.items ≡ text.old.items ++ kid_text kid.now) }
{
    text.push(kid.mask.byte())?;
    put_hashes(text, kid)?;
    put_depths(text, kid)?;
    Ok(())
}

fn put_hashes(text: &mut Vec<u8>, kid: &ChildInfo) -> Result<(), AllocError>
    ensures { OnOk result (text.new.items ≡ text.old.items ++ stored_hashes kid.now) }
{
    put_hash(text, kid, 0)?;
    put_hash(text, kid, 1)?;
    put_hash(text, kid, 2)?;
    put_hash(text, kid, 3)?;
    Ok(())
}

fn put_depths(text: &mut Vec<u8>, kid: &ChildInfo) -> Result<(), AllocError>
    ensures { OnOk result (text.new.items ≡ text.old.items ++ stored_depths kid.now) }
{
    put_depth(text, kid, 0)?;
    put_depth(text, kid, 1)?;
    put_depth(text, kid, 2)?;
    put_depth(text, kid, 3)?;
    Ok(())
}

/// Adds the hash at a level, where it is significant.
fn put_hash(text: &mut Vec<u8>, kid: &ChildInfo, level: u8) -> Result<(), AllocError>
    requires { level ≤ 3 }
    ensures { OnOk result (text.new.items
        ≡ text.old.items ++ (if is_significant kid.now.mask level then hash_text kid.now level else [])) }
{
    if kid.mask.significant(level) {
        text.extend_from_slice(&kid.hashes[level as usize].0)?;
    }
    Ok(())
}

/// Adds the depth at a level, where it is significant.
fn put_depth(text: &mut Vec<u8>, kid: &ChildInfo, level: u8) -> Result<(), AllocError>
    requires { level ≤ 3 }
    ensures { OnOk result (text.new.items
        ≡ text.old.items ++ (if is_significant kid.now.mask level then depth_text kid.now level else [])) }
{
    if kid.mask.significant(level) {
        text.extend_from_slice(&kid.depths[level as usize].to_be_bytes())?;
    }
    Ok(())
}
