use crate::stores::{Cell, batch_of, drop_all, is_batch, put_cells, state, store, weak};
use cd_cell::{Prepared, WeakSum};
use cd_count::{CountFault, Plan, plan_drop};
use cd_keeper::{Keeper, MemoryKeeper, SteadyKeeper};
use std::test::Fail;

/// A root w(02) with the empty cell, which is w(00), in all four places.
const FOUR_PLACES: [Cell; 2] = [Cell(&[], &[1, 1, 1, 1]), Cell(&[], &[])];

/// Two roots, w(35) and w(36), over a cell w(22).
const LEFT: [Cell; 2] = [Cell(&[0x10], &[1]), Cell(&[0x20], &[])];

const RIGHT: [Cell; 2] = [Cell(&[0x11], &[1]), Cell(&[0x20], &[])];

/// Two roots w(06), each over another cell w(05).
const FOUR_BITS: [Cell; 2] = [Cell(&[], &[1]), Cell(&[1, 0], &[])];

const OTHER_BITS: [Cell; 2] = [Cell(&[], &[1]), Cell(&[0, 1], &[])];

#[test]
fn a_child_in_four_places_goes_with_the_last_root(rt: HostRuntime) -> Result<(), Fail> {
    let alloc = rt.alloc();
    let four: Prepared<WeakSum> = state(alloc, &FOUR_PLACES)?;
    let root = four.root().rep();
    let mut keeper = SteadyKeeper::new(alloc);
    put_cells(alloc, &mut keeper, &four, &[2, 4])?;
    // The other block with this root holds all cells.
    let first = drop_all(alloc, &mut keeper, &[root])?;
    assert!(rt; is_batch(&first, &[(root, 1)], &[]));
    let reads = keeper.reads();
    let last = drop_all(alloc, &mut keeper, &[root])?;
    assert!(rt; keeper.reads().wrapping_sub(reads) <= 11);
    assert!(rt; last.put_cells().is_empty());
    assert!(rt; last.drop_cells().len() == 2);
    assert!(rt; keeper.next_cell(None)?.is_none());
    Ok(())
}

#[test]
fn a_shared_cell_goes_with_both_states(rt: HostRuntime) -> Result<(), Fail> {
    let alloc = rt.alloc();
    let left: Prepared<WeakSum> = state(alloc, &LEFT)?;
    let right: Prepared<WeakSum> = state(alloc, &RIGHT)?;
    let mut keeper = SteadyKeeper::new(alloc);
    put_cells(alloc, &mut keeper, &left, &[1, 2])?;
    put_cells(alloc, &mut keeper, &right, &[1, 2])?;
    let batch = drop_all(alloc, &mut keeper, &[weak(0x36)])?;
    assert!(rt; is_batch(&batch, &[(weak(0x22), 1)], &[weak(0x36)]));
    // What doesn't change stays in version 1.
    let stays = keeper.get_cell(&weak(0x35))?.ok_or("no root")?;
    assert!(rt; stays.first() == Some(&1));
    let batch = drop_all(alloc, &mut keeper, &[weak(0x35)])?;
    assert!(rt; is_batch(&batch, &[], &[weak(0x22), weak(0x35)]));
    Ok(())
}

#[test]
fn a_shared_cell_comes_with_both_states(rt: HostRuntime) -> Result<(), Fail> {
    let alloc = rt.alloc();
    let left: Prepared<WeakSum> = state(alloc, &LEFT)?;
    let right: Prepared<WeakSum> = state(alloc, &RIGHT)?;
    let mut keeper = SteadyKeeper::new(alloc);
    let batch = store(alloc, &mut keeper, &left, 9)?.ok().ok_or("refused")?;
    assert!(rt; is_batch(&batch, &[(weak(0x22), 1), (weak(0x35), 1)], &[]));
    let full = store(alloc, &mut keeper, &right, 1)?.err();
    assert!(rt;
        full == Some(CountFault::CountFull {
            hash: weak(0x22),
            count: 2
        })
    );
    let batch = store(alloc, &mut keeper, &right, 2)?.ok().ok_or("refused")?;
    assert!(rt; is_batch(&batch, &[(weak(0x22), 2), (weak(0x36), 1)], &[]));
    // A held root adds nothing to its children.
    let batch = store(alloc, &mut keeper, &left, 9)?.ok().ok_or("refused")?;
    assert!(rt; is_batch(&batch, &[(weak(0x35), 2)], &[]));
    Ok(())
}

#[test]
fn a_clash_below_a_held_root_is_told(rt: HostRuntime) -> Result<(), Fail> {
    let alloc = rt.alloc();
    let four: Prepared<WeakSum> = state(alloc, &FOUR_BITS)?;
    let other: Prepared<WeakSum> = state(alloc, &OTHER_BITS)?;
    let mut keeper = SteadyKeeper::new(alloc);
    let held = store(alloc, &mut keeper, &four, 9)?.is_ok();
    assert!(rt; held);
    let fault = store(alloc, &mut keeper, &other, 9)?.err();
    let clashes = matches!(fault, Some(CountFault::Clash { hash, .. }) if hash == weak(5));
    assert!(rt; clashes);
    Ok(())
}

#[test]
fn a_keeper_that_fails_is_told(rt: HostRuntime) -> Result<(), Fail> {
    let alloc = rt.alloc();
    let mut keeper = MemoryKeeper::new(alloc, [0].to_vec(alloc)?);
    let fault = plan_drop(alloc, &mut keeper, Plan::empty(alloc), &[weak(1)]).err();
    assert!(rt; fault == Some(CountFault::Keeper));
    let nothing = batch_of(alloc, Plan::empty(alloc))?;
    assert!(rt; is_batch(&nothing, &[], &[]));
    Ok(())
}
