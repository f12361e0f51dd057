ghost use Rattle.std.specs.Prelude.{◌≡◌, ◌≤◌, [], length, All, IfOk, OnErr};
ghost use Rattle.std.specs.List.{AllByRecursion};
ghost use Rattle.cd_fan.specs.Fans.{HaveGotBytes};
ghost use Rattle.cd_feed.specs.Feeds.{IsFeedFit, IsPhaseFit};
ghost use Rattle.cd_gate.specs.Gates.{IsFirstSeat};
ghost use Rattle.cd_lanes.specs.Lanes.{AreUnserved};
ghost use Rattle.cd_lanes.specs.Left.{LeftByOne, PhaseServed, all_serves};
ghost use Rattle.cd_replay.specs.Ran.{pins_in};
ghost use Rattle.cd_run.specs.ReportText.{ends_of};
ghost use Rattle.cd_threads.specs.Ran.{FeedDone, FeedStopped};
ghost use Rattle.cd_threads.specs.Whole.{IsAllOf, PhasesDone, PhasesStopped, pins_seen};

use crate::phase::do_phase;
use cd_base::Memory;
use cd_cell::Hash32;
use cd_core::Core;
use cd_fan::{Client, SliceClient};
use cd_feed::{Feed, Phase};
use cd_keeper::Keeper;
use cd_run::{Holdup, Outcome};
use cd_shared::{DbSeat, SharedDb};
use std::alloc::Global;
use std::sync::Wait;
use std::thread::Threads;

/// The most workers of a phase.
const WORKERS: u16 = 16;

/// Does the tasks of phases one after another by one seat of all numbers, which it gives back.
fn do_phases<K: Keeper + Send, H: Hash32 + Send + Sync, P: Holdup, R: Threads + Wait + Sync>(
    rt: &R,
    alloc: Global,
    db: &SharedDb<K, H>,
    seat: DbSeat<K, H>,
    phases: &[Phase],
    clients: &mut Vec<Client>,
    holdup: &P,
) -> (DbSeat<K, H>, Result<Vec<Vec<Vec<Outcome>>>, Memory>)
    requires seat { IsFirstSeat db.now seat }
    requires numbers { db.now.workers ≡ 16 }
    requires few { length phases.now ≤ 4096 }
    requires fit { AllByRecursion IsPhaseFit phases.now }
    requires one { all_serves phases.now ≤ 1 }
    requires fresh { HaveGotBytes (λ c. got c) 0 clients.old.items }
    ensures seat { IsAllOf db.now result.0 }
    ensures done { IfOk result.1 (λ ends. PhasesDone H.digest_of K.held db.now
        phases.now (ends_of ends.items) result.0) }
    ensures stopped { OnErr result.1 (PhasesStopped H.digest_of K.held db.now phases.now result.0) }
    ensures clients { IfOk result.1 (λ ends. LeftByOne (All AreUnserved)
        (PhaseServed (λ c. got c) (λ c. steady c) H.digest_of
        (pins_seen H.digest_of K.held db.now result.0))
        phases.now (ends_of ends.items) clients.old.items clients.new.items) }
    ensures clients_then { OnErr result.1 (LeftByOne (All AreUnserved)
        (PhaseServed (λ c. got c) (λ c. steady c) H.digest_of
        (pins_seen H.digest_of K.held db.now result.0))
        phases.now [] clients.old.items clients.new.items) }
{
    let mut seat = seat;
    let mut ends = Vec::new(alloc);
    for (place, phase) in phases.iter().enumerate() {
        let workers = phase.workers.as_slice();
        let (back, its) = do_phase(rt, alloc, db, seat, place as u16, workers, clients, holdup);
        seat = back;
        let its = match its {
            Ok(its) => its,
            Err(_) => return (seat, Err(Memory)),
        };
        if ends.push(its).is_err() {
            return (seat, Err(Memory));
        }
    }
    (seat, Ok(ends))
}

/// Does the tasks of a feed on threads: phase after phase, and in each its workers side by side, each on a thread
/// of its own where one can be made. The core comes back in every case. It tells how each task ended, in its place.
/// Where memory runs out, the workers of that phase end as they can, and no further phase begins.
pub fn run_feed<K: Keeper + Send, H: Hash32 + Send + Sync, P: Holdup, R: Threads + Wait + Sync>(
    rt: &R,
    alloc: Global,
    core: Core<K, H>,
    feed: &Feed,
    clients: &mut Vec<Client>,
    holdup: &P,
) -> (Core<K, H>, Result<Vec<Vec<Vec<Outcome>>>, Memory>)
    requires fit { IsFeedFit feed.now }
    requires empty { core.journal ≡ [] }
    requires fresh { HaveGotBytes (λ c. got c) 0 clients.old.items }
    ensures done { IfOk result.1 (λ ends. FeedDone H.digest_of K.held K.faults
        feed.now.phases (ends_of ends.items) core result.0) }
    ensures stopped { OnErr result.1 (FeedStopped H.digest_of K.held K.faults
        feed.now.phases core result.0) }
    ensures clients { IfOk result.1 (λ ends. LeftByOne (All AreUnserved)
        (PhaseServed (λ c. got c) (λ c. steady c) H.digest_of (pins_in H.digest_of K.held result.0))
        feed.now.phases (ends_of ends.items) clients.old.items clients.new.items) }
    ensures clients_then { OnErr result.1 (LeftByOne (All AreUnserved)
        (PhaseServed (λ c. got c) (λ c. steady c) H.digest_of (pins_in H.digest_of K.held result.0))
        feed.now.phases [] clients.old.items clients.new.items) }
{
    let (db, seat) = match SharedDb::new(alloc, core, WORKERS) {
        Ok(made) => made,
        Err((core, error)) => {
            let _ = core.journal();
            return (core, Err(error));
        }
    };
    let (seat, ends) = do_phases(
        rt,
        alloc,
        &db,
        seat,
        feed.phases.as_slice(),
        clients,
        holdup,
    );
    let core = db.close(seat);
    let _ = core.journal();
    (core, ends)
}
