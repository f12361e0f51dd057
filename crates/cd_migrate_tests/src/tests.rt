ghost use Rattle.std.specs.Prelude.{◌≡◌, [], IfOk};

use cd_base::Hash256;
use cd_keeper::{Keeper, MemoryKeeper};
use cd_migrate::{MigrateFault, Migrated, migrate};
use std::alloc::Global;
use std::test::Fail;

/// The empty cell's record with count 1, in both versions.
const OLD: [u8; 7] = [1, 0, 0, 0, 1, 0, 0];

const NEW: [u8; 11] = [2, 0, 0, 0, 0, 0, 0, 0, 1, 0, 0];

/// A hash with this number in its last bytes.
fn numbered(number: u32) -> Hash256 {
    let mut hash = Hash256([0; 32]);
    hash.0[28..].copy_from_slice(&number.to_be_bytes());
    hash
}

/// A keeper with so many records of version 1, whose calls of these numbers fail.
fn old_records(alloc: Global, records: u32, fails: &[u64]) -> Result<MemoryKeeper, Fail>
    ensures { IfOk result (λ keeper. keeper.trail ≡ []) }
{
    let mut keeper = MemoryKeeper::new(alloc, fails.to_vec(alloc)?);
    for number in 0..records {
        keeper.put_raw_cell(numbered(number), OLD.to_vec(alloc)?)?;
    }
    Ok(keeper)
}

/// Whether these bytes stand under the number.
fn holds<K: Keeper>(keeper: &mut K, number: u32, bytes: &[u8]) -> bool {
    match keeper.get_cell(&numbered(number)) {
        Ok(Some(found)) => found.as_slice() == bytes,
        _ => false,
    }
}

#[test]
fn rewrites_once(rt: HostRuntime) -> Result<(), Fail> {
    let alloc = rt.alloc();
    let mut keeper = old_records(alloc, 1, &[])?;
    let done = Migrated {
        records: 1,
        rewritten: 1,
    };
    assert!(rt; migrate(alloc, &mut keeper) == Ok(done));
    assert!(rt; holds(&mut keeper, 0, &NEW));
    let again = Migrated {
        records: 1,
        rewritten: 0,
    };
    assert!(rt; migrate(alloc, &mut keeper) == Ok(again));
    assert!(rt; keeper.batches() == 1);
    Ok(())
}

#[test]
fn leaves_what_is_no_old_record(rt: HostRuntime) -> Result<(), Fail> {
    let alloc = rt.alloc();
    let mut keeper = old_records(alloc, 1, &[])?;
    keeper.put_raw_cell(numbered(1), NEW.to_vec(alloc)?)?;
    // A record that is cut.
    keeper.put_raw_cell(numbered(2), OLD[..6].to_vec(alloc)?)?;
    let done = Migrated {
        records: 3,
        rewritten: 1,
    };
    assert!(rt; migrate(alloc, &mut keeper) == Ok(done));
    assert!(rt; holds(&mut keeper, 1, &NEW));
    assert!(rt; holds(&mut keeper, 2, &OLD[..6]));
    Ok(())
}

#[test]
fn a_batch_has_4096(rt: HostRuntime) -> Result<(), Fail> {
    let alloc = rt.alloc();
    let mut keeper = old_records(alloc, 4097, &[])?;
    let done = Migrated {
        records: 4097,
        rewritten: 4097,
    };
    assert!(rt; migrate(alloc, &mut keeper) == Ok(done));
    assert!(rt; keeper.batches() == 2);
    assert!(rt; holds(&mut keeper, 4096, &NEW));
    // After the first batch the last record was still of version 1.
    let Some(mut first) = keeper.at(1)? else {
        return Err(Fail::from("no first batch"));
    };
    assert!(rt; holds(&mut first, 4095, &NEW));
    assert!(rt; holds(&mut first, 4096, &OLD));
    Ok(())
}

#[test]
fn goes_on_after_a_failure(rt: HostRuntime) -> Result<(), Fail> {
    let alloc = rt.alloc();
    // 4,096 records are read and make a batch; then one is read, then none, and the second batch is the call 4,099.
    let mut keeper = old_records(alloc, 4097, &[4099])?;
    assert!(rt; migrate(alloc, &mut keeper) == Err(MigrateFault::Keeper));
    assert!(rt; keeper.batches() == 1);
    let rest = Migrated {
        records: 4097,
        rewritten: 1,
    };
    assert!(rt; migrate(alloc, &mut keeper) == Ok(rest));
    assert!(rt; keeper.batches() == 2);
    Ok(())
}

#[test]
fn faults_are_told(rt: HostRuntime) -> Result<(), Fail> {
    let alloc = rt.alloc();
    assert!(rt; format!(in alloc; "{}", MigrateFault::Keeper)?.as_str() == "the keeper failed");
    assert!(rt; format!(in alloc; "{}", MigrateFault::Memory)?.as_str() == "out of memory");
    Ok(())
}
