ghost use Rattle.std.specs.Prelude.{[], All, IfOk, OnErr};
ghost use Rattle.cd_fan.specs.Fans.{HaveGotBytes};
ghost use Rattle.cd_feed.specs.Feeds.{IsFeedFit};
ghost use Rattle.cd_run.specs.ReportText.{ends_of};
ghost use Rattle.cd_lanes.specs.Lanes.{AreUnserved};
ghost use Rattle.cd_lanes.specs.Left.{LeftByOne, PhaseServed};
ghost use Rattle.cd_replay.specs.Ran.{FeedDone, FeedStopped, pins_in};

use crate::phase::do_phase;
use cd_base::Memory;
use cd_cell::Hash32;
use cd_core::Core;
use cd_fan::{Client, SliceClient};
use cd_feed::Feed;
use cd_keeper::Keeper;
use cd_run::Outcome;
use std::alloc::Global;

/// Does the tasks of a feed on one thread: phase after phase, in each worker after worker, and of each task after task.
/// It tells how each ended, in its place. Where memory runs out, no further task is done.
pub fn do_feed<K: Keeper, H: Hash32>(
    alloc: Global,
    core: &mut Core<K, H>,
    feed: &Feed,
    clients: &mut Vec<Client>,
) -> Result<Vec<Vec<Vec<Outcome>>>, Memory>
    requires fit { IsFeedFit feed.now }
    requires fresh { HaveGotBytes (λ c. got c) 0 clients.old.items }
    ensures done { IfOk result (λ ends. FeedDone H.digest_of K.held K.faults
        feed.now.phases (ends_of ends.items) core.old core.new) }
    ensures stopped { OnErr result (FeedStopped H.digest_of K.held K.faults
        feed.now.phases core.old core.new) }
    ensures clients { IfOk result (λ ends. LeftByOne (All AreUnserved)
        (PhaseServed (λ c. got c) (λ c. steady c) H.digest_of (pins_in H.digest_of K.held core.new))
        feed.now.phases (ends_of ends.items) clients.old.items clients.new.items) }
    ensures clients_then { OnErr result (LeftByOne (All AreUnserved)
        (PhaseServed (λ c. got c) (λ c. steady c) H.digest_of (pins_in H.digest_of K.held core.new))
        feed.now.phases [] clients.old.items clients.new.items) }
{
    let mut ends = Vec::new(alloc);
    for (place, phase) in feed.phases.as_slice().iter().enumerate() {
        let its = match do_phase(alloc, core, place as u16, phase.workers.as_slice(), clients) {
            Ok(its) => its,
            Err(_) => return Err(Memory),
        };
        if ends.push(its).is_err() {
            return Err(Memory);
        }
    }
    Ok(ends)
}
