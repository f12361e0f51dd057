ghost use Rattle.cd_fan.specs.Fans.{HaveGotBytes};

use crate::feeds::{TWO_BLOCKS_LINES, serve_and_block, two_blocks};
use crate::turnstile::{Holding, Signal, Turnstile, WithClient};
use cd_base::{SteadySink, SteadySource};
use cd_cell::WeakSum;
use cd_core::Core;
use cd_fan::{Client, SliceClient};
use cd_keeper::{MemoryKeeper, SteadyKeeper};
use cd_restart::open_core;
use cd_run::{Holdup, NoHoldup};
use cd_top::{Ended, Status, celldb_run};
use std::alloc::Global;
use std::sync::Wait;
use std::test::Fail;
use std::thread::Threads;

/// Runs a feed over an empty store, and gives the report and the keeper of a run that ended well.
fn run<P: Holdup, R: Threads + Wait + Sync>(
    rt: &R,
    alloc: Global,
    feed: Vec<u8>,
    clients: Vec<Client>,
    holdup: &P,
) -> Result<(Vec<u8>, MemoryKeeper), Fail>
    requires fresh { HaveGotBytes (λ c. got c) 0 clients.items }
{
    let mut words = Vec::new(alloc);
    words.push(String::from_str(alloc, "run")?)?;
    let mut input = SteadySource::new(feed);
    let mut out = SteadySink::new(alloc);
    let keeper = MemoryKeeper::new(alloc, Vec::new(alloc));
    let Ended {
        status,
        keeper,
        journal: _,
        clients: _,
    } = celldb_run::<_, _, _, WeakSum, _, _>(
        rt, alloc, &words, &mut input, &mut out, keeper, clients, holdup,
    );
    match status {
        Status::Ok => Ok((out.taken().to_vec(alloc)?, keeper)),
        _ => Err(Fail::from("the run didn't end well")),
    }
}

// Each of two workers waits in its merge for the other one's, so neither waits for the other to end.
#[test]
fn workers_run_side_by_side(rt: HostRuntime) -> Result<(), Fail> {
    let alloc = rt.alloc();
    for held in 0..2 {
        let turnstile = Turnstile {
            held,
            merged: Signal::new(alloc)?,
            late: Signal::new(alloc)?,
        };
        let feed = two_blocks(alloc)?;
        let (told, keeper) = run(&rt, alloc, feed, Vec::new(alloc), &turnstile)?;
        assert!(rt; turnstile.merged.has_come() && !turnstile.late.has_come());
        assert!(rt; told.as_slice() == TWO_BLOCKS_LINES.as_bytes() && keeper.batches() == 3);
    }
    Ok(())
}

// A client of one worker's serve takes its first piece while the other worker's merge goes on.
#[test]
fn a_client_takes_while_another_worker_merges(rt: HostRuntime) -> Result<(), Fail> {
    let alloc = rt.alloc();
    let (taking, merged, late) = (
        Signal::new(alloc)?,
        Signal::new(alloc)?,
        Signal::new(alloc)?,
    );
    let client = Holding {
        taking: taking.share()?,
        merged: merged.share()?,
        late: late.share()?,
    };
    let mut clients: Vec<Client> = Vec::new(alloc);
    clients.push(Box::new(alloc, client)?)?;
    let holdup = WithClient {
        taking,
        merged,
        late,
    };
    let feed = serve_and_block(alloc)?;
    let (_, keeper) = run(&rt, alloc, feed, clients, &holdup)?;
    assert!(rt; holdup.taking.has_come() && holdup.merged.has_come() && !holdup.late.has_come());
    assert!(rt; keeper.batches() == 2);
    Ok(())
}

/// How many blocks are in the store that a keeper held after so many batches.
fn blocks_after(alloc: Global, keeper: &MemoryKeeper, batches: u64) -> Result<usize, Fail> {
    let stopped = keeper.at(batches)?.ok_or("no such batch")?;
    let core: Core<SteadyKeeper, WeakSum> = match open_core(alloc, stopped, 1000) {
        Ok(core) => core,
        Err(_) => return Err(Fail::from("the store isn't opened")),
    };
    Ok(core.world().blocks.as_slice().len())
}

// Each entry makes a batch that stores a block, so a store that is stopped after so many has as many blocks.
#[test]
fn a_store_that_is_stopped_after_a_batch_opens(rt: HostRuntime) -> Result<(), Fail> {
    let alloc = rt.alloc();
    for _ in 0..100 {
        let feed = two_blocks(alloc)?;
        let (told, keeper) = run(&rt, alloc, feed, Vec::new(alloc), &NoHoldup)?;
        assert!(rt; told.as_slice() == TWO_BLOCKS_LINES.as_bytes());
        for batches in 0..=3 {
            assert!(rt; blocks_after(alloc, &keeper, batches)? as u64 == batches);
        }
    }
    Ok(())
}
