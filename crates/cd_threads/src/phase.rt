ghost use Rattle.std.specs.Prelude.{◌≡◌, ◌<◌, ◌≤◌, [], length, map, IfOk, OnErr};
ghost use Rattle.std.specs.List.{AllByRecursion};
ghost use Rattle.cd_fan.specs.Fans.{HaveGotBytes};
ghost use Rattle.cd_feed.specs.Feeds.{IsWorkerFit};
ghost use Rattle.cd_lanes.specs.Lanes.{AreUnserved};
ghost use Rattle.cd_lanes.specs.Left.{LeftByOne, WorkerServed, serves_of};
ghost use Rattle.cd_threads.specs.Whole.{IsAllOf, PhaseDone, PhaseStopped, pins_seen};

use crate::ending::end_lanes;
use crate::serving::run_served;
use crate::splitting::split_lanes;
use cd_base::Memory;
use cd_cell::Hash32;
use cd_fan::{Client, SliceClient};
use cd_feed::Tasks;
use cd_keeper::Keeper;
use cd_run::{Holdup, Outcome};
use cd_shared::{DbSeat, SharedDb};
use std::alloc::Global;
use std::sync::Wait;
use std::thread::Threads;

/// Does the tasks of a phase, its workers side by side, by the seat of all numbers, which it gives back. Where the
/// lanes find no memory, no task is done.
pub(crate) fn do_phase<
    K: Keeper + Send,
    H: Hash32 + Send + Sync,
    P: Holdup,
    R: Threads + Wait + Sync,
>(
    rt: &R,
    alloc: Global,
    db: &SharedDb<K, H>,
    seat: DbSeat<K, H>,
    phase: u16,
    workers: &[Tasks],
    clients: &mut Vec<Client>,
    holdup: &P,
) -> (DbSeat<K, H>, Result<Vec<Vec<Outcome>>, Memory>)
    requires seat { IsAllOf db.now seat }
    requires numbers { db.now.workers ≡ 16 }
    requires some { 0 < length workers.now }
    requires few { length workers.now ≤ 16 }
    requires fit { AllByRecursion IsWorkerFit workers.now }
    requires one { serves_of workers.now ≤ 1 }
    requires fresh { 1 ≤ serves_of workers.now → HaveGotBytes (λ c. got c) 0 clients.old.items }
    ensures seat { IsAllOf db.now result.0 }
    ensures done { IfOk result.1 (λ ends. PhaseDone H.digest_of K.held db.now
        phase workers.now (map (λ its. its.items) ends.items) seat result.0) }
    ensures stopped { OnErr result.1 (PhaseStopped H.digest_of K.held db.now
        phase workers.now seat result.0) }
    ensures clients { IfOk result.1 (λ ends. LeftByOne AreUnserved
        (WorkerServed (λ c. got c) (λ c. steady c) H.digest_of
        (pins_seen H.digest_of K.held db.now result.0))
        workers.now (map (λ its. its.items) ends.items) clients.old.items clients.new.items) }
    ensures clients_then { OnErr result.1 (LeftByOne AreUnserved
        (WorkerServed (λ c. got c) (λ c. steady c) H.digest_of
        (pins_seen H.digest_of K.held db.now result.0))
        workers.now [] clients.old.items clients.new.items) }
    ensures untouched { serves_of workers.now ≡ 0 → clients.new.items ≡ clients.old.items }
{
    let count = workers.len();
    let Ok(mut lanes) = Vec::with_capacity(alloc, count) else {
        return (seat, Err(Memory));
    };
    let Ok(mut ends) = Vec::with_capacity(alloc, count) else {
        return (seat, Err(Memory));
    };
    split_lanes(alloc, rt, db, seat, count as u16, &mut lanes);
    run_served(rt, alloc, phase, workers, &mut lanes, clients, holdup);
    let (seat, want) = end_lanes(db, lanes, &mut ends);
    let _ = seat.front();
    if want {
        return (seat, Err(Memory));
    }
    (seat, Ok(ends))
}
