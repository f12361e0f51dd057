//! Small states by their cells, and keepers that hold them.

use cd_base::Hash256;
use cd_boc_read::read_bag;
use cd_cell::{Bag, Hash32, Prepared};
use cd_count::{CountFault, Plan, plan_add, plan_drop};
use cd_keeper::{Batch, Keeper, SteadyKeeper};
use cd_prepare::prepare_zero;
use cd_record::{Record, decode, encode_v1};
use std::alloc::Global;
use std::test::Fail;

/// A cell: its bytes, and the numbers of its children, which stand behind it.
#[derive(Clone, Copy)]
pub(crate) struct Cell(pub(crate) &'static [u8], pub(crate) &'static [u8]);

/// The bytes of a bag of these cells, the first of which is the root.
pub(crate) fn bytes_of(alloc: Global, cells: &[Cell]) -> Result<Vec<u8>, Fail> {
    let mut text = Vec::new(alloc);
    for cell in cells {
        text.push(u8::try_from(cell.1.len()).unwrap_or(0))?;
        text.push(u8::try_from(cell.0.len()).unwrap_or(0).wrapping_mul(2))?;
        text.extend_from_slice(cell.0)?;
        text.extend_from_slice(cell.1)?;
    }
    let count = u8::try_from(cells.len()).unwrap_or(0);
    let total = u8::try_from(text.len()).unwrap_or(0);
    let mut bytes = [0xb5, 0xee, 0x9c, 0x72, 1, 1, count, 1, 0, total, 0].to_vec(alloc)?;
    bytes.extend_from_slice(text.as_slice())?;
    Ok(bytes)
}

/// The state with these cells, prepared.
pub(crate) fn state<H: Hash32>(alloc: Global, cells: &[Cell]) -> Result<Prepared<H>, Fail> {
    let bytes = bytes_of(alloc, cells)?;
    prepared(alloc, bytes.as_slice())
}

/// The state of a bag, prepared.
pub(crate) fn prepared<H: Hash32>(alloc: Global, bytes: &[u8]) -> Result<Prepared<H>, Fail> {
    let bag: Bag<H> = match read_bag(alloc, bytes) {
        Ok(bag) => bag,
        Err(_) => return Err(Fail::from("no bag")),
    };
    match prepare_zero(alloc, &bag) {
        Ok(prepared) => Ok(prepared),
        Err(_) => Err(Fail::from("no state")),
    }
}

/// The weak hash of one byte.
pub(crate) fn weak(byte: u8) -> Hash256 {
    let mut hash = Hash256([0; 32]);
    hash.0[31] = byte;
    hash
}

/// Whether the batch puts exactly records of version 2 of these counts, in this order, and drops exactly these.
pub(crate) fn is_batch(batch: &Batch, puts: &[(Hash256, u64)], drops: &[Hash256]) -> bool {
    if batch.put_cells().len() != puts.len() || batch.drop_cells() != drops {
        return false;
    }
    batch.put_cells().iter().zip(puts.iter()).all(|(put, due)| put.0 == due.0
        && count_in(put.1.as_slice()) == Some(due.1))
}

/// The count of a record of version 2.
fn count_in(bytes: &[u8]) -> Option<u64> {
    if bytes.first() != Some(&2) {
        return None;
    }
    decode(bytes).ok().map(|record| record.count)
}

/// The batch of a plan alone.
pub(crate) fn batch_of(alloc: Global, plan: Plan) -> Result<Batch, Fail> {
    match plan.into_batch(alloc, Vec::new(alloc), Vec::new(alloc)) {
        Ok(batch) => Ok(batch),
        Err(_) => Err(Fail::from("no batch")),
    }
}

/// Puts a record of version 1 of each cell of a state, with these counts.
pub(crate) fn put_cells<H: Hash32>(
    alloc: Global,
    keeper: &mut SteadyKeeper,
    state: &Prepared<H>,
    counts: &[u32],
) -> Result<(), Fail> {
    for (cell, count) in state.cells().iter().zip(counts.iter()) {
        if *count > 0 {
            let record = Record {
                count: u64::from(*count),
                face: cell.face,
            };
            keeper.put_raw_cell(cell.hash, encode_v1(alloc, &record)?)?;
        }
    }
    Ok(())
}

/// Stores a state, and gives the batch that did, or the refusal.
pub(crate) fn store<K: Keeper, H: Hash32>(
    alloc: Global,
    keeper: &mut K,
    prepared: &Prepared<H>,
    limit: u32,
) -> Result<Result<Batch, CountFault>, Fail> {
    match plan_add(alloc, keeper, prepared, u64::from(limit)) {
        Ok(plan) => {
            let batch = batch_of(alloc, plan)?;
            keeper.apply(&batch).ok().ok_or("no room")?;
            Ok(Ok(batch))
        }
        Err(fault) => Ok(Err(fault)),
    }
}

/// Drops states with these roots, and gives the batch that did.
pub(crate) fn drop_all<K: Keeper>(
    alloc: Global,
    keeper: &mut K,
    roots: &[Hash256],
) -> Result<Batch, Fail> {
    let empty = Plan::empty(alloc);
    match plan_drop(alloc, keeper, empty, roots) {
        Ok(plan) => {
            let batch = batch_of(alloc, plan)?;
            keeper.apply(&batch).ok().ok_or("no room")?;
            Ok(batch)
        }
        Err(_) => Err(Fail::from("no plan")),
    }
}
