use crate::damages::{ALONE, DAMAGES, Damage, MORE, TWO_CELLS};
use crate::stores::{Numbers, Put, held_by, held_under_sha, refusal, store, weak};
use cd_base::Memory;
use cd_cell::WeakSum;
use cd_core::Core;
use cd_keeper::MemoryKeeper;
use cd_restart::{OpenFault, ScanFault, open_core};
use std::alloc::Global;
use std::test::Fail;

/// The block of w(04) over w(03), and those of w(03) in two workchains. All but the last are leaving.
const STOPPED: [Put; 5] = [
    Put::Cell(3, 3, &[0, 2, 1], &[]),
    Put::Cell(4, 1, &[1, 0], &[(3, 0)]),
    Put::Leaving(4, 1),
    Put::Leaving(3, 0),
    Put::Basechain(3),
];

/// A store of one cell.
const ONE_CELL: [Put; 2] = [Put::Cell(3, 1, &[0, 2, 1], &[]), Put::State((3, 0), (3, 0))];

/// The empty cell in records of both versions.
const VERSIONS: [Put; 2] = [
    Put::EmptyCell(&[2, 0, 0, 0, 0, 0, 0, 0, 1, 0, 0]),
    Put::EmptyCell(&[1, 0, 0, 0, 1, 0, 0]),
];

const fn held(blocks: u64, cells: u64, counts: u64) -> Option<Numbers> {
    Some(Numbers {
        blocks,
        cells,
        counts,
    })
}

/// How much a store over SHA-256 holds.
fn sha_held(alloc: Global, put: Put) -> Result<Option<Numbers>, Memory> {
    let mut keeper = store(alloc, &[], &[Put::EmptyState], &[put], &[])?;
    Ok(held_under_sha(alloc, &mut keeper))
}

/// How much a store over the weak hash holds, of which a scan makes no batch.
fn weak_held(alloc: Global, puts: &[Put]) -> Result<Option<Numbers>, Memory> {
    let mut keeper = store(alloc, &[], puts, &[], &[])?;
    let found = held_by(alloc, &mut keeper);
    Ok(if keeper.batches() == 0 { found } else { None })
}

#[test]
fn whole_stores_are_opened_in_both_versions(rt: HostRuntime) -> Result<(), Fail> {
    let alloc = rt.alloc();
    assert!(rt; weak_held(alloc, &[])? == held(0, 0, 0));
    assert!(rt; weak_held(alloc, &TWO_CELLS)? == held(1, 2, 2));
    for put in VERSIONS {
        assert!(rt; sha_held(alloc, put)? == held(1, 1, 1));
    }
    Ok(())
}

/// Whether a store with a damage, put in after others, is refused as it should be.
fn tells(alloc: Global, first: &[Put], later: &[Put], damage: &Damage) -> Result<bool, Memory> {
    let mut keeper = store(alloc, &[], first, later, damage.0)?;
    Ok(refusal(alloc, &mut keeper) == Some(damage.1.fault()))
}

/// Whether the first damage is told beside each of these.
fn tells_the_first(alloc: Global, damages: &[Damage]) -> Result<bool, Memory> {
    let Some(first) = damages.first() else {
        return Ok(false);
    };
    for later in damages {
        if !tells(alloc, &TWO_CELLS, later.0, first)? {
            return Ok(false);
        }
    }
    Ok(true)
}

#[test]
fn the_first_damage_is_told(rt: HostRuntime) -> Result<(), Fail> {
    let alloc = rt.alloc();
    for place in 0..DAMAGES.len() {
        assert!(rt;
            tells_the_first(alloc, &DAMAGES[place..])?,
            "damage {place}"
        );
    }
    Ok(())
}

#[test]
fn further_damages_are_told(rt: HostRuntime) -> Result<(), Fail> {
    let alloc = rt.alloc();
    for damage in &MORE {
        assert!(rt; tells(alloc, &TWO_CELLS, &[], damage)?);
    }
    for damage in &ALONE {
        assert!(rt; tells(alloc, &[], &[], damage)?);
    }
    Ok(())
}

/// Whether a scan tells that this call of the keeper failed, and the next scan finds nothing wrong.
fn tells_the_keeper(alloc: Global, call: u64) -> Result<bool, Memory> {
    let mut keeper = store(alloc, &[call], &ONE_CELL, &[], &[])?;
    let told = matches!(refusal(alloc, &mut keeper), Some(ScanFault::Keeper));
    let faults = keeper.faults();
    Ok(told && faults == 1 && refusal(alloc, &mut keeper).is_none())
}

#[test]
fn a_keeper_that_fails_is_told(rt: HostRuntime) -> Result<(), Fail> {
    let alloc = rt.alloc();
    for call in 0..6 {
        assert!(rt; tells_the_keeper(alloc, call)?, "call {call}");
    }
    Ok(())
}

/// The store that an opening leaves, with one block and an empty journal.
fn settled(alloc: Global, keeper: MemoryKeeper) -> Option<MemoryKeeper> {
    let core: Core<MemoryKeeper, WeakSum> = match open_core(alloc, keeper, 9) {
        Ok(core) => core,
        Err(_) => return None,
    };
    let blocks = core.world().blocks.as_slice().len();
    let is_begun = core.journal().is_empty();
    let (keeper, _) = core.close();
    if blocks == 1 && is_begun {
        Some(keeper)
    } else {
        None
    }
}

/// What a store held after one batch.
fn held_between(alloc: Global, keeper: &MemoryKeeper) -> Result<Option<Numbers>, Memory> {
    match keeper.at(1)? {
        Some(mut between) => Ok(held_by(alloc, &mut between)),
        None => Ok(None),
    }
}

#[test]
fn a_stopped_store_is_settled(rt: HostRuntime) -> Result<(), Fail> {
    let alloc = rt.alloc();
    assert!(rt; weak_held(alloc, &STOPPED)? == held(3, 2, 4));
    let keeper = store(alloc, &[], &STOPPED, &[], &[])?;
    let Some(mut keeper) = settled(alloc, keeper) else {
        return Err(Fail::from("the store isn't opened and settled"));
    };
    assert!(rt; keeper.batches() == 2);
    assert!(rt; held_by(alloc, &mut keeper) == held(1, 1, 1));
    // What stood in between is a store too, without the block of the least id.
    assert!(rt; held_between(alloc, &keeper)? == held(2, 2, 3));
    Ok(())
}

/// The fault and the number of batches of a store that isn't opened.
fn unopened(alloc: Global, keeper: MemoryKeeper) -> Option<(OpenFault, u64)> {
    match open_core::<MemoryKeeper, WeakSum>(alloc, keeper, 9) {
        Ok(_) => None,
        Err((keeper, fault)) => Some((fault, keeper.batches())),
    }
}

#[test]
fn a_damaged_store_is_not_opened(rt: HostRuntime) -> Result<(), Fail> {
    let alloc = rt.alloc();
    let keeper = store(alloc, &[], &STOPPED, &[Put::Record(9, &[3])], &[])?;
    let Some((OpenFault::Damaged(ScanFault::Record { hash, .. }), batches)) = unopened(
        alloc, keeper,
    ) else {
        return Err(Fail::from("the store is opened, or has another fault"));
    };
    assert!(rt; hash == weak(9) && batches == 0);
    Ok(())
}
