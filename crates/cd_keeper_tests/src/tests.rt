use cd_base::Hash256;
use cd_keeper::{Batch, KeepFault, Keeper, MemoryKeeper, SteadyKeeper};
use std::alloc::Global;
use std::test::Fail;

const LOW: Hash256 = Hash256([1; 32]);

const HIGH: Hash256 = Hash256([2; 32]);

const DESC: [u8; 80] = [3; 80];

/// Puts a record, unless the batch names it.
fn put_cell(alloc: Global, batch: &mut Batch, key: Hash256, value: &[u8]) -> Result<bool, Fail> {
    if batch.names_cell(&key) {
        return Ok(false);
    }
    batch.put_cell(key, value.to_vec(alloc)?)?;
    Ok(true)
}

fn drop_cell(batch: &mut Batch, key: Hash256) -> Result<bool, Fail> {
    if batch.names_cell(&key) {
        return Ok(false);
    }
    batch.drop_cell(key)?;
    Ok(true)
}

fn put_desc(alloc: Global, batch: &mut Batch, value: &[u8]) -> Result<bool, Fail> {
    if batch.names_desc(&DESC) {
        return Ok(false);
    }
    batch.put_desc(DESC, value.to_vec(alloc)?)?;
    Ok(true)
}

fn drop_desc(batch: &mut Batch) -> Result<bool, Fail> {
    if batch.names_desc(&DESC) {
        return Ok(false);
    }
    batch.drop_desc(DESC)?;
    Ok(true)
}

/// Puts two records and a description.
fn puts(alloc: Global) -> Result<Batch, Fail> {
    let mut batch = Batch::new(alloc);
    put_cell(alloc, &mut batch, LOW, &[10, 11])?;
    put_cell(alloc, &mut batch, HIGH, &[20])?;
    put_desc(alloc, &mut batch, &[30])?;
    Ok(batch)
}

/// Puts one record anew, and drops the rest.
fn drops(alloc: Global) -> Result<Batch, Fail> {
    let mut batch = Batch::new(alloc);
    drop_cell(&mut batch, LOW)?;
    put_cell(alloc, &mut batch, HIGH, &[21])?;
    drop_desc(&mut batch)?;
    Ok(batch)
}

fn is_same(got: Option<Vec<u8>>, value: &[u8]) -> bool {
    match got {
        Some(same) => same.as_slice() == value,
        None => false,
    }
}

/// All records in order, each as the first byte of its hash, its value, and 1 where it is got under its hash.
fn put_records<K: Keeper>(text: &mut Vec<u8>, keeper: &mut K) -> Result<(), Fail> {
    let mut after = None;
    for _ in 0..3 {
        let Some((key, value)) = keeper.next_cell(after)? else {
            return Ok(());
        };
        let got = keeper.get_cell(&key)?;
        text.push(key.0[0])?;
        text.extend_from_slice(&value)?;
        text.push(u8::from(is_same(got, &value)))?;
        after = Some(key);
    }
    Ok(())
}

/// The one description: 3 where one key comes and none behind it, its value, and 1.
fn put_description<K: Keeper>(text: &mut Vec<u8>, keeper: &mut K) -> Result<(), Fail> {
    if keeper.next_desc(None)?.is_some() && keeper.next_desc(Some(DESC))?.is_none() {
        text.push(3)?;
    }
    if let Some(value) = keeper.get_desc(&DESC)? {
        text.extend_from_slice(&value)?;
        text.push(1)?;
    }
    Ok(())
}

/// All that a keeper holds.
fn shown<K: Keeper>(alloc: Global, keeper: &mut K) -> Result<Vec<u8>, Fail> {
    let mut text = Vec::new(alloc);
    put_records(&mut text, keeper)?;
    put_description(&mut text, keeper)?;
    Ok(text)
}

/// What a keeper holds after each of both batches.
fn applies<K: Keeper>(alloc: Global, keeper: &mut K) -> Result<Vec<u8>, Fail> {
    keeper.apply(&puts(alloc)?)?;
    let mut text = shown(alloc, keeper)?;
    keeper.apply(&drops(alloc)?)?;
    text.extend_from_slice(&shown(alloc, keeper)?)?;
    Ok(text)
}

/// The record 99 under the higher hash, and the description 99.
const RAW: [u8; 6] = [2, 99, 1, 3, 99, 1];

/// All that the first batch puts, and what the second one leaves.
const APPLIED: [u8; 13] = [1, 10, 11, 1, 2, 20, 1, 3, 30, 1, 2, 21, 1];

/// A keeper that holds what was written raw.
fn steady(alloc: Global) -> Result<SteadyKeeper, Fail> {
    let mut keeper = SteadyKeeper::new(alloc);
    keeper.put_raw_cell(HIGH, [99].to_vec(alloc)?)?;
    keeper.put_raw_desc(DESC, [99].to_vec(alloc)?)?;
    Ok(keeper)
}

#[test]
fn a_steady_keeper_answers(rt: HostRuntime) -> Result<(), Fail> {
    let mut keeper = steady(rt.alloc())?;
    let raw = shown(rt.alloc(), &mut keeper)?;
    let applied = applies(rt.alloc(), &mut keeper)?;
    assert!(rt; raw.as_slice() == RAW.as_slice());
    assert!(rt; applied.as_slice() == APPLIED.as_slice());
    assert!(rt; keeper.batches() == 2 && keeper.reads() == 19);
    Ok(())
}

/// A keeper that holds what was written raw, and of which no call fails.
fn memory(alloc: Global) -> Result<MemoryKeeper, Fail> {
    let mut keeper = MemoryKeeper::new(alloc, Vec::new(alloc));
    keeper.put_raw_cell(HIGH, [99].to_vec(alloc)?)?;
    keeper.put_raw_desc(DESC, [99].to_vec(alloc)?)?;
    Ok(keeper)
}

/// What a keeper held after so many batches, or nothing where there were fewer.
fn moment(alloc: Global, keeper: &MemoryKeeper, k: u64) -> Result<Vec<u8>, Fail> {
    match keeper.at(k)? {
        Some(mut keeper) => shown(alloc, &mut keeper),
        None => Ok(Vec::new(alloc)),
    }
}

/// The moments from a first one up to the third.
fn moments(alloc: Global, keeper: &MemoryKeeper, from: u64) -> Result<Vec<u8>, Fail> {
    let mut text = Vec::new(alloc);
    for k in from..4 {
        text.extend_from_slice(&moment(alloc, keeper, k)?)?;
    }
    Ok(text)
}

#[test]
fn a_memory_keeper_tells_each_moment(rt: HostRuntime) -> Result<(), Fail> {
    let mut keeper = memory(rt.alloc())?;
    let applied = applies(rt.alloc(), &mut keeper)?;
    let raw = moment(rt.alloc(), &keeper, 0)?;
    let later = moments(rt.alloc(), &keeper, 1)?;
    assert!(rt; raw.as_slice() == RAW.as_slice());
    assert!(rt; applied.as_slice() == APPLIED.as_slice() && later.as_slice() == APPLIED.as_slice());
    Ok(())
}

/// Whether a call fails and leaves nothing, and the next one makes the batch.
fn fails_once<K: Keeper>(alloc: Global, keeper: &mut K, batch: &Batch) -> Result<bool, Fail> {
    let failed = keeper.apply(batch).is_err();
    let nothing = shown(alloc, keeper)?.is_empty();
    keeper.apply(batch)?;
    Ok(failed && nothing && shown(alloc, keeper)?.len() == 10)
}

#[test]
fn a_batch_that_fails_is_not_made(rt: HostRuntime) -> Result<(), Fail> {
    let batch = puts(rt.alloc())?;
    let mut keeper = MemoryKeeper::new(rt.alloc(), [0].to_vec(rt.alloc())?);
    assert!(rt; fails_once(rt.alloc(), &mut keeper, &batch)?);
    assert!(rt; keeper.faults() == 1);
    Ok(())
}

#[test]
fn a_batch_names_a_key_once(rt: HostRuntime) -> Result<(), Fail> {
    let alloc = rt.alloc();
    let mut batch = Batch::new(alloc);
    assert!(rt; put_cell(alloc, &mut batch, LOW, &[1])?);
    assert!(rt; !drop_cell(&mut batch, LOW)?);
    assert!(rt; drop_cell(&mut batch, HIGH)?);
    assert!(rt; !put_cell(alloc, &mut batch, HIGH, &[2])?);
    assert!(rt; put_desc(alloc, &mut batch, &[3])?);
    assert!(rt; !drop_desc(&mut batch)?);
    let mut batch = Batch::new(alloc);
    assert!(rt; drop_desc(&mut batch)?);
    assert!(rt; !put_desc(alloc, &mut batch, &[3])?);
    Ok(())
}

#[test]
fn each_fault_has_a_text(rt: HostRuntime) -> Result<(), Fail> {
    let text = format!(in rt.alloc(); "{}; {}", KeepFault::Failed, KeepFault::Memory)?;
    assert!(rt; text.as_str() == "the keeper failed; out of memory");
    Ok(())
}
