ghost use Rattle.cd_phases.specs.Sides.{IsReady, LaneRan};

use cd_event::Turns;
use cd_fan::{Client, SliceClient};
use cd_feed::Task;
use cd_lanes::do_tasks;
use cd_run::{Holdup, Outcome};
use std::alloc::Global;

/// What one worker of a phase has.
#[derive(Drop)]
pub struct Lane<T> {
    /// Its place in the phase.
    pub worker: u16,
    /// Its turns.
    pub seat: T,
    /// How its tasks ended, in their order.
    pub outcomes: Vec<Outcome>,
    /// Whom its serve sends to.
    pub clients: Vec<Client>,
    /// Whether memory ran out. Then no further task is done, and no end is told.
    pub memory: bool,
}

/// Does a worker's tasks of a phase, in their order.
pub(crate) fn run_lane<T: Turns, P: Holdup>(
    alloc: Global,
    phase: u16,
    tasks: &[Task],
    lane: &mut Lane<T>,
    holdup: &P,
)
    requires ready { IsReady T.worker (λ l. l.clients.items) (λ c. got c) tasks.now lane.old }
    ensures { LaneRan T.Hash.digest_of T.worker T.faults T.made T.goes T.named
        (λ l. l.clients.items) (λ c. got c) (λ c. steady c) phase tasks.now lane.old lane.new }
{
    match do_tasks(
        alloc,
        &mut lane.seat,
        phase,
        lane.worker,
        tasks,
        &mut lane.clients,
        holdup,
    ) {
        Ok(ends) => lane.outcomes = ends,
        Err(_) => lane.memory = true,
    }
}
