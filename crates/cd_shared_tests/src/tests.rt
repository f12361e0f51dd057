ghost use Rattle.std.specs.Prelude.{◌≡◌, IfOk};
ghost use Rattle.cd_gate.specs.Gates.{IsSeatOf, IsFirstSeat};

use crate::stores::{block_id, empty_core, root_face, root_hash, state};
use cd_block::BlockIds;
use cd_cell::{Face, WeakSum};
use cd_event::{At, LookFault, PinFault, Turns, UnpinFault};
use cd_keeper::SteadyKeeper;
use cd_shared::{AtDb, DbSeat, SharedDb};
use std::alloc::Global;
use std::sync::Wait;
use std::test::Fail;
use std::thread::{Threads, join};

type Db = SharedDb<SteadyKeeper, WeakSum>;

type Seat = DbSeat<SteadyKeeper, WeakSum>;

const AT: At = At { phase: 0, task: 0 };

/// A shared core of two workers without blocks, and its first seat.
fn shared(alloc: Global) -> Result<(Db, Seat), Fail>
    ensures { IfOk result (λ made. IsFirstSeat made.0 made.1 × (made.0.workers ≡ 2)) }
{
    let core = empty_core(alloc)?;
    match SharedDb::new(alloc, core, 2) {
        Ok(made) => Ok(made),
        Err((core, error)) => {
            drop(core);
            Err(error.into())
        }
    }
}

/// Stores the zero state.
fn store<R: Wait>(rt: &R, alloc: Global, db: &Db, seat: &mut Seat) -> Result<(), Fail>
    requires { IsSeatOf db.now seat.old }
    ensures { seat.new ≡ record seat.old { seen = seat.new.seen } }
{
    let state = state(alloc)?;
    db.zero(rt, seat, AT, block_id(), BlockIds::new(alloc), state)?;
    Ok(())
}

/// Pins the block, looks its root up and ends the pin. Whether the root was seen as it is.
fn see<R: Wait>(rt: &R, db: &Db, seat: &mut Seat, root: &Face) -> bool
    requires { IsSeatOf db.now seat.old }
    ensures { seat.new ≡ record seat.old { seen = seat.new.seen } }
{
    let Ok(pinned) = db.pin(rt, seat, AT, block_id()) else {
        return false;
    };
    let Ok(found) = db.look(rt, seat, AT, pinned.pin, &[root_hash()]) else {
        return false;
    };
    let collected = db.unpin(rt, seat, AT, pinned.pin);
    collected == Ok(false) && found.first() == Some(&Some(*root))
}

/// Does so a hundred times, and counts how often it was so.
fn see_often<R: Wait>(rt: &R, db: &Db, mut seat: Seat, root: &Face) -> (Seat, u64)
    requires { IsSeatOf db.now seat }
    ensures { result.0 ≡ record seat { seen = result.0.seen } }
{
    let mut times = 0u64;
    for _ in 0..100 {
        if see(rt, db, &mut seat, root) {
            times = times.saturating_add(1);
        }
    }
    (seat, times)
}

/// Does so on two threads.
fn see_from_both<R: Threads + Wait + Sync>(
    rt: &R,
    db: &Db,
    low: Seat,
    high: Seat,
    root: &Face,
) -> ((Seat, u64), (Seat, u64))
    requires low { IsSeatOf db.now low }
    requires high { IsSeatOf db.now high }
    ensures low { result.0.0 ≡ record low { seen = result.0.0.seen } }
    ensures high { result.1.0 ≡ record high { seen = result.1.0.seen } }
{
    join(
        rt,
        || -> (Seat, u64)
            requires { IsSeatOf db.now low }
            ensures { result.0 ≡ record low { seen = result.0.seen } }
        { see_often(rt, db, low, root) },
        || -> (Seat, u64)
            requires { IsSeatOf db.now high }
            ensures { result.0 ≡ record high { seen = result.0.seen } }
        { see_often(rt, db, high, root) },
    )
}

// Each call is an entry: one of the zero state, and three hundred of each thread. No pin is left.
#[test]
fn two_threads_look_under_pins(rt: HostRuntime) -> Result<(), Fail> {
    let alloc = rt.alloc();
    let (db, mut low) = shared(alloc)?;
    let stored = store(&rt, alloc, &db, &mut low);
    let high = db.split(&mut low, 1);
    let root = root_face();
    let ((mut low, first), (high, second)) = see_from_both(&rt, &db, low, high, &root);
    db.join(&mut low, high);
    assert!(rt; low.front() == 601);
    let core = db.close(low);
    stored?;
    assert!(rt; first == 100 && second == 100);
    assert!(rt; core.world().blocks.as_slice().len() == 1);
    assert!(rt; core.world().pins.as_slice().is_empty());
    let (_, journal) = core.close();
    assert!(rt; journal.len() == 601);
    for worker in 0..2u16 {
        let own = journal.iter().filter(|entry| entry.who.worker == worker);
        assert!(rt; own.count() == if worker == 0 { 301 } else { 300 });
    }
    Ok(())
}

/// Pins the block so often, and counts the pins that were given.
fn pin_often<T: Turns>(turns: &mut T, times: u64) -> u64
    ensures { T.goes turns.old turns.new }
{
    let mut pins = 0u64;
    for _ in 0..times {
        if turns.pin(AT, block_id()).is_ok() {
            pins = pins.saturating_add(1);
        }
    }
    pins
}

#[test]
fn each_seat_has_64_pins(rt: HostRuntime) -> Result<(), Fail> {
    let alloc = rt.alloc();
    let (db, mut low) = shared(alloc)?;
    let stored = store(&rt, alloc, &db, &mut low);
    let high = db.split(&mut low, 1);
    let mut low = AtDb::new(&rt, &db, low);
    let mut high = AtDb::new(&rt, &db, high);
    let given = pin_often(&mut low, 64);
    let full = low.pin(AT, block_id()).err();
    let other = high.pin(AT, block_id()).map(|pinned| pinned.pin);
    let unpinned = high.unpin(AT, 5).err();
    let looked = high.look(AT, 5, &[root_hash()]).err();
    let mut low = low.into_seat();
    let high = high.into_seat();
    db.join(&mut low, high);
    drop(db.close(low));
    stored?;
    assert!(rt; given == 64 && full == Some(PinFault::PinsFull));
    assert!(rt; other.ok() == Some(64));
    assert!(rt; unpinned == Some(UnpinFault::NoPin));
    assert!(rt; looked == Some(LookFault::NoPin));
    Ok(())
}
