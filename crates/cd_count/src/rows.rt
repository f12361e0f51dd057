//! What a plan has of each hash while it is made.

ghost use Rattle.std.specs.Prelude.{◌≡◌, ◌+◌, ◌-◌, ◌≤◌, map, take, length, Some, IfSome, IfOk, IfErr, OnOk};
ghost use Rattle.cd_cell.specs.Infos.{rep_of_info};
ghost use Rattle.cd_keeper.specs.Shown.{hash_bytes};
ghost use Rattle.cd_keeper.specs.Keeping.{KeepsHeld};
ghost use Rattle.cd_count.specs.Reading.{stored_in, HasCountCause};
ghost use Rattle.cd_count.specs.PlanSteps.{kid_bytes, first_row, with_last, IsTaken, AreTaken};
ghost use Rattle.std.specs.Option.{option_map};
ghost use Rattle.std.specs.BTreeMap as tree;
ghost use Rattle.cd_cell.specs.Export.{hash_cmp};
ghost use Rattle.cd_count.specs.declared.rows.Row.{Row};
ghost use Rattle.cd_count.specs.PlanRows.{row_of, rows_of, IsRowFit, AreRowsFit};
ghost use Rattle.cd_count.specs.PlanGiving.{IsRowGood};
ghost use Rattle.cd_count.specs.Clashes.{IsOutside};

use crate::count_fault::CountFault;
use crate::row_face::RowFace;
use cd_base::{Hash256, Memory};
use cd_cell::Face;
use cd_keeper::Keeper;
use cd_record::{Record, decode};
use std::alloc::{AllocError, Global};
use std::collections::BTreeMap;

/// What a plan has of a hash: the count that is stored, if there is a record, the count to be, and the face.
#[derive(Drop)]
pub struct Row<'a> {
    pub stored: Option<u64>,
    pub count: u64,
    pub face: RowFace<'a>,
}

/// Rows by hash, in the order of the hashes. A hash of which something was read has a row.
pub type Rows<'a> = BTreeMap<Hash256, Row<'a>>;

/// The record under a hash. Bytes that are none count as nothing.
fn read_record<K: Keeper>(keeper: &mut K, hash: &Hash256) -> Result<Option<Record>, CountFault>
    ensures value { IfOk result (λ found. IfSome (K.held keeper.old)
        (λ contents. found ≡ stored_in contents hash.now.0)) }
    ensures fit { IfOk result (λ found. IfSome found (λ r. IsRowFit (row_of (first_row r)))) }
    ensures keeps { KeepsHeld K.held K.trail K.batches keeper.old keeper.new }
    ensures reads { K.reads keeper.new ≤ K.reads keeper.old + 1 }
    ensures cause { HasCountCause (K.faults keeper.old) (K.faults keeper.new) result }
    ensures outside { IfErr result IsOutside }
{
    match keeper.get_cell(hash)? {
        Some(bytes) => Ok(decode(bytes.as_slice()).ok()),
        None => Ok(None),
    }
}

/// The row of a stored cell before anything changes.
fn first_row<'a>(alloc: Global, found: Record) -> Result<Row<'a>, Memory>
    ensures { IfOk result (λ row. row ≡ first_row found) }
{
    Ok(Row {
        stored: Some(found.count),
        count: found.count,
        face: RowFace::read(alloc, found.face)?,
    })
}

/// The row of the cell that is stored under a hash, before anything changes.
pub fn read_row<'a, K: Keeper>(
    alloc: Global,
    keeper: &mut K,
    hash: &Hash256,
) -> Result<Option<Row<'a>>, CountFault>
    ensures value { IfOk result (λ found. IfSome (K.held keeper.old)
        (λ contents. found ≡ option_map first_row (stored_in contents hash.now.0))) }
    ensures fit { IfOk result (λ found. IfSome found (λ row. IsRowFit (row_of row))) }
    ensures good { IfOk result (λ found. IfSome found (λ row. IsRowGood (row_of row))) }
    ensures keeps { KeepsHeld K.held K.trail K.batches keeper.old keeper.new }
    ensures reads { K.reads keeper.new ≤ K.reads keeper.old + 1 }
    ensures cause { HasCountCause (K.faults keeper.old) (K.faults keeper.new) result }
    ensures outside { IfErr result IsOutside }
{
    match read_record(keeper, hash)? {
        Some(record) => Ok(Some(first_row(alloc, record)?)),
        None => Ok(None),
    }
}

/// Takes one reference of a hash away. Where it was the last, the hash goes behind the dead.
pub fn take_reference<'a, K: Keeper>(
    alloc: Global,
    rows: &mut Rows<'a>,
    keeper: &mut K,
    dead: &mut Vec<Hash256>,
    hash: &Hash256,
) -> Result<(), CountFault>
    ensures taken { OnOk result (IfSome (K.held keeper.old) (λ contents.
        IsTaken (stored_in contents) rows.old dead.old.items hash.now.0 rows.new dead.new.items)) }
    ensures keeps { KeepsHeld K.held K.trail K.batches keeper.old keeper.new }
    ensures longer { OnOk result (length dead.old.items ≤ length dead.new.items) }
    ensures fit { OnOk result (AreRowsFit (rows_of rows.old.entries) → AreRowsFit (rows_of rows.new.entries)) }
    ensures reads { K.reads keeper.new ≤ K.reads keeper.old + 1 }
    ensures cause { HasCountCause (K.faults keeper.old) (K.faults keeper.new) result }
    ensures outside { IfErr result IsOutside }
{
    if let Some(row) = rows.get_mut(hash) {
        return Ok(lower(row, dead, hash)?);
    }
    let Some(mut row) = read_row(alloc, keeper, hash)? else {
        return Ok(());
    };
    lower(&mut row, dead, hash)?;
    rows.insert(*hash, row)?;
    Ok(())
}

/// Takes one reference of each hash away.
pub fn take_references<'a, K: Keeper>(
    alloc: Global,
    rows: &mut Rows<'a>,
    keeper: &mut K,
    dead: &mut Vec<Hash256>,
    hashes: &[Hash256],
) -> Result<(), CountFault>
    ensures taken { OnOk result (IfSome (K.held keeper.old) (λ contents.
        AreTaken (stored_in contents) rows.old dead.old.items (map hash_bytes hashes.now) rows.new dead.new.items)) }
    ensures keeps { KeepsHeld K.held K.trail K.batches keeper.old keeper.new }
    ensures longer { OnOk result (length dead.old.items ≤ length dead.new.items) }
    ensures fit { OnOk result (AreRowsFit (rows_of rows.old.entries) → AreRowsFit (rows_of rows.new.entries)) }
    ensures reads { K.reads keeper.new ≤ K.reads keeper.old + length hashes.now }
    ensures cause { HasCountCause (K.faults keeper.old) (K.faults keeper.new) result }
    ensures outside { IfErr result IsOutside }
{
    for hash in hashes {
        take_reference(alloc, rows, keeper, dead, hash)?;
    }
    Ok(())
}

/// Takes away one reference for each child place of a cell that has a row.
pub fn take_kids<'a, K: Keeper>(
    alloc: Global,
    rows: &mut Rows<'a>,
    keeper: &mut K,
    dead: &mut Vec<Hash256>,
    hash: &Hash256,
) -> Result<(), CountFault>
    ensures taken { OnOk result (IfSome (K.held keeper.old) (λ contents. (row : Row)
        → tree.get hash_cmp rows.old hash.now ≡ Some row → AreTaken (stored_in contents) rows.old dead.old.items
        (kid_bytes row.face) rows.new dead.new.items)) }
    ensures keeps { KeepsHeld K.held K.trail K.batches keeper.old keeper.new }
    ensures longer { OnOk result (length dead.old.items ≤ length dead.new.items) }
    ensures fit { OnOk result (AreRowsFit (rows_of rows.old.entries) → AreRowsFit (rows_of rows.new.entries)) }
    ensures reads { K.reads keeper.new ≤ K.reads keeper.old + 4 }
    ensures cause { HasCountCause (K.faults keeper.old) (K.faults keeper.new) result }
    ensures outside { IfErr result IsOutside }
{
    let Some(row) = rows.get(hash) else {
        return Ok(());
    };
    let (kids, refs) = kid_hashes(row.face.get());
    take_references(alloc, rows, keeper, dead, &kids[..refs])
}

/// The hashes of the children, and their number; behind them stands a filler.
pub fn kid_hashes(face: &Face) -> ([Hash256; 4], usize)
    ensures few { result.1 ≤ 4 }
    ensures value { take result.1 result.0 ≡ map rep_of_info face.now.kids }
{
    let mut hashes = [Hash256([0; 32]); 4];
    let kids = face.kids();
    for (place, kid) in kids.iter().enumerate() {
        hashes[place] = kid.rep();
    }
    (hashes, kids.len())
}

/// One reference less. Where it was the last, the hash goes behind the dead.
fn lower(row: &mut Row, dead: &mut Vec<Hash256>, hash: &Hash256) -> Result<(), AllocError>
    ensures row { OnOk result (row.new ≡ record row.old { count = row.old.count - 1 }) }
    ensures dead { OnOk result (dead.new.items ≡ with_last row.old.count dead.old.items hash.now) }
    ensures longer { OnOk result (length dead.old.items ≤ length dead.new.items) }
{
    if row.count == 1 {
        dead.push(*hash)?;
    }
    row.count = row.count.saturating_sub(1);
    Ok(())
}
