ghost use Rattle.std.specs.Prelude.{◌≡◌, ◌≢◌, ◌<◌, ◌≤◌, ℕ, false, true, [], length, map, slice_index_or};
ghost use Rattle.std.specs.List.{AllByRecursion};
ghost use Rattle.cd_fan.specs.Fans.{HaveGotBytes};
ghost use Rattle.cd_feed.specs.Feeds.{IsWorkerFit, is_serve};
ghost use Rattle.cd_lanes.specs.Lanes.{serves, AreUnserved};
ghost use Rattle.cd_lanes.specs.Left.{LeftByOne, serves_of};
ghost use Rattle.cd_threads.specs.Serving.{IsUnused, LaneDid, LaneServed};

use cd_cell::Hash32;
use cd_event::Turns;
use cd_fan::{Client, SliceClient};
use cd_feed::{Task, Tasks};
use cd_phases::{Lane, run_phase};
use cd_run::Holdup;
use std::alloc::Global;
use std::mem::swap;
use std::thread::Threads;

/// Whether a task sends to the clients.
#[tactic(auto, unfolding(cd_feed::specs::Feeds::is_serve))]
fn sends(task: &Task) -> bool
    ensures { result ≡ is_serve task.now }
{
    matches!(task, Task::Serve { .. })
}

/// Whether one of some tasks does.
fn has_serve(tasks: &[Task]) -> bool
    ensures none { result ≡ false → serves tasks.now ≡ 0 }
    ensures some { result ≡ true → 1 ≤ serves tasks.now }
{
    for task in tasks {
        if sends(task) {
            return true;
        }
    }
    false
}

/// The first worker with a serve, or the number of the workers where none has one.
fn server_of(workers: &[Tasks]) -> usize
    requires one { serves_of workers.now ≤ 1 }
    ensures others { (k : ℕ) → k < length workers.now → k ≢ result
        → serves (slice_index_or workers.now k []) ≡ 0 }
{
    for (place, tasks) in workers.iter().enumerate() {
        if has_serve(tasks.as_slice()) {
            return place;
        }
    }
    workers.len()
}

fn swap_with<T>(lane: &mut Lane<T>, clients: &mut Vec<Client>)
    ensures lane { lane.new ≡ record lane.old { clients = clients.old } }
    ensures clients { clients.new ≡ lane.old.clients }
{
    swap(&mut lane.clients, clients);
}

/// Exchanges the clients with those of one lane, if it is there.
fn swap_clients<T>(lanes: &mut Vec<Lane<T>>, server: usize, clients: &mut Vec<Client>)
    ensures count { length lanes.new.items ≡ length lanes.old.items }
    ensures same { (k : ℕ) (d : _) → k < length lanes.old.items → slice_index_or lanes.new.items k d
        ≡ record (slice_index_or lanes.old.items k d)
        { clients = (slice_index_or lanes.new.items k d).clients } }
    ensures given { (d : _) → server < length lanes.old.items
        → (slice_index_or lanes.new.items server d).clients ≡ clients.old }
    ensures taken { (d : _) → server < length lanes.old.items
        → clients.new ≡ (slice_index_or lanes.old.items server d).clients }
    ensures absent { length lanes.old.items ≤ server → clients.new ≡ clients.old }
{
    if let Some(lane) = lanes.get_mut(server) {
        swap_with(lane, clients);
    }
}

/// Each worker of a phase does its tasks in its lane, and the one with a serve has the clients meanwhile.
pub(crate) fn run_served<
    T: Turns<Hash = H> + Send,
    H: Hash32 + Send + Sync,
    P: Holdup,
    R: Threads + Sync,
>(
    rt: &R,
    alloc: Global,
    phase: u16,
    workers: &[Tasks],
    lanes: &mut Vec<Lane<T>>,
    clients: &mut Vec<Client>,
    holdup: &P,
)
    requires some { 0 < length lanes.old.items }
    requires one_each { length lanes.old.items ≡ length workers.now }
    requires fit { AllByRecursion IsWorkerFit workers.now }
    requires one { serves_of workers.now ≤ 1 }
    requires fresh { 1 ≤ serves_of workers.now → HaveGotBytes (λ c. got c) 0 clients.old.items }
    requires unused { (k : ℕ) (d : _) → k < length lanes.old.items
        → IsUnused T.worker k (slice_index_or lanes.old.items k d) }
    ensures count { length lanes.new.items ≡ length lanes.old.items }
    ensures did { (k : ℕ) (d : _) → k < length lanes.old.items
        → LaneDid H.digest_of T.worker T.faults T.made T.goes T.named phase k
        (slice_index_or workers.now k []) (slice_index_or lanes.old.items k d)
        (slice_index_or lanes.new.items k d) }
    ensures clients { LeftByOne AreUnserved
        (LaneServed (λ c. got c) (λ c. steady c) H.digest_of T.named lanes.new.items)
        workers.now (map (λ l. l.outcomes.items) lanes.new.items)
        clients.old.items clients.new.items }
    ensures untouched { serves_of workers.now ≡ 0 → clients.new.items ≡ clients.old.items }
{
    let server = server_of(workers);
    swap_clients(lanes, server, clients);
    run_phase(rt, alloc, phase, workers, lanes.as_mut_slice(), holdup);
    swap_clients(lanes, server, clients);
}
