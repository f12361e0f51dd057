ghost use Rattle.std.specs.Prelude.{◌≡◌, ◌≤◌, [], length, map, IfOk, OnErr};
ghost use Rattle.std.specs.List.{AllByRecursion};
ghost use Rattle.cd_fan.specs.Fans.{HaveGotBytes};
ghost use Rattle.cd_feed.specs.Feeds.{IsWorkerFit};
ghost use Rattle.cd_lanes.specs.Lanes.{AreUnserved};
ghost use Rattle.cd_lanes.specs.Left.{LeftByOne, WorkerServed, serves_of};
ghost use Rattle.cd_replay.specs.Ran.{PhaseDone, PhaseStopped, pins_in};

use crate::worker::do_worker;
use cd_base::Memory;
use cd_cell::Hash32;
use cd_core::Core;
use cd_fan::{Client, SliceClient};
use cd_feed::Tasks;
use cd_keeper::Keeper;
use cd_run::Outcome;
use std::alloc::Global;

/// Does the tasks of a phase, worker after worker. Where memory runs out, no further task is done.
pub(crate) fn do_phase<K: Keeper, H: Hash32>(
    alloc: Global,
    core: &mut Core<K, H>,
    phase: u16,
    workers: &[Tasks],
    clients: &mut Vec<Client>,
) -> Result<Vec<Vec<Outcome>>, Memory>
    requires few { length workers.now ≤ 16 }
    requires fit { AllByRecursion IsWorkerFit workers.now }
    requires one { serves_of workers.now ≤ 1 }
    requires fresh { 1 ≤ serves_of workers.now → HaveGotBytes (λ c. got c) 0 clients.old.items }
    ensures done { IfOk result (λ ends. PhaseDone H.digest_of K.held K.faults
        phase workers.now (map (λ its. its.items) ends.items) core.old core.new) }
    ensures stopped { OnErr result (PhaseStopped H.digest_of K.held K.faults
        phase workers.now core.old core.new) }
    ensures clients { IfOk result (λ ends. LeftByOne AreUnserved
        (WorkerServed (λ c. got c) (λ c. steady c) H.digest_of (pins_in H.digest_of K.held core.new))
        workers.now (map (λ its. its.items) ends.items) clients.old.items clients.new.items) }
    ensures clients_then { OnErr result (LeftByOne AreUnserved
        (WorkerServed (λ c. got c) (λ c. steady c) H.digest_of (pins_in H.digest_of K.held core.new))
        workers.now [] clients.old.items clients.new.items) }
    ensures untouched { serves_of workers.now ≡ 0 → clients.new.items ≡ clients.old.items }
{
    let mut ends = Vec::new(alloc);
    for (place, tasks) in workers.iter().enumerate() {
        let its = match do_worker(alloc, core, phase, place as u16, tasks.as_slice(), clients) {
            Ok(its) => its,
            Err(_) => return Err(Memory),
        };
        if ends.push(its).is_err() {
            return Err(Memory);
        }
    }
    Ok(ends)
}
