ghost use Rattle.std.specs.Prelude.{◌≡◌, ℕ, ◌≤◌, ◌<◌, false, length, Ok, IfOk};
ghost use Rattle.cd_base.specs.Reading.{GivesUnless};
ghost use Rattle.cd_feed.specs.declared.feed.Feed.{Feed};
ghost use Rattle.cd_feed.specs.declared.feed_fault.FeedFault.TheVariants.{Memory};
ghost use Rattle.cd_feed.specs.Feeds.{feed_text, IsFeed, IsFeedFit};
ghost use Rattle.cd_feed.specs.FeedReading as spec;

use crate::feed::{Feed, Phase, Phases, Task, Tasks, Workers};
use crate::feed_fault::FeedFault;
use crate::fields::{cut, limited_at, room};
use crate::tasks::task_at;
use cd_base::number_at;
use std::alloc::Global;

/// The ASCII text `cdf1`.
pub const MAGIC: u64 = 0x6364_6631;

/// The least bytes that a task, a worker and a phase take.
const TASK_LEN: usize = 81;

const WORKER_LEN: usize = 2;

const PHASE_LEN: usize = 4;

/// So many tasks of a worker, whether a Serve stood before their end, and the bytes behind them.
fn tasks_at(
    alloc: Global,
    total: usize,
    phase: u16,
    worker: u16,
    count: u16,
    served: bool,
    bytes: &[u8],
) -> Result<(Vec<Task>, bool, &[u8]), FeedFault>
    requires { length bytes.now ≤ total }
    ensures exact { GivesUnless Memory (λ x. (x.0.items, record { served = x.1; bytes = x.2.now })) result
        (spec.tasks_at total phase worker count (record { served = served; bytes = bytes.now })) }
    ensures rest { IfOk result (λ x. length x.2.now ≤ length bytes.now) }
{
    let mut tasks = Vec::with_capacity(alloc, room(u64::from(count), bytes, TASK_LEN))?;
    let mut rest = bytes;
    let mut seen = served;
    for task in 0..count {
        let fault = FeedFault::Task {
            phase,
            worker,
            task,
        };
        let (read, serves, after) = match task_at(alloc, total, fault, seen, rest) {
            Ok(found) => found,
            Err(fault) => return Err(fault),
        };
        tasks.push(read)?;
        seen = serves;
        rest = after;
    }
    Ok((tasks, seen, rest))
}

/// The tasks of one worker.
#[tactic(auto, unfolding(crate::specs::FeedReading::worker_at))]
fn worker_at(
    alloc: Global,
    total: usize,
    phase: u16,
    worker: u16,
    served: bool,
    bytes: &[u8],
) -> Result<(Tasks, bool, &[u8]), FeedFault>
    requires { length bytes.now ≤ total }
    ensures exact { GivesUnless Memory (λ x. (x.0, record { served = x.1; bytes = x.2.now })) result
        (spec.worker_at total phase worker (record { served = served; bytes = bytes.now })) }
    ensures rest { IfOk result (λ x. length x.2.now ≤ length bytes.now) }
{
    let (count, rest) = limited_at(total, 2, 0, 4096, bytes)?;
    match tasks_at(alloc, total, phase, worker, count as u16, served, rest) {
        Ok((tasks, seen, rest)) => Ok((Tasks::from(tasks), seen, rest)),
        Err(fault) => Err(fault),
    }
}

/// So many workers of a phase.
fn workers_at(
    alloc: Global,
    total: usize,
    phase: u16,
    count: u16,
    served: bool,
    bytes: &[u8],
) -> Result<(Vec<Tasks>, bool, &[u8]), FeedFault>
    requires { length bytes.now ≤ total }
    ensures exact { GivesUnless Memory (λ x. (x.0.items, record { served = x.1; bytes = x.2.now })) result
        (spec.workers_at total phase count (record { served = served; bytes = bytes.now })) }
    ensures rest { IfOk result (λ x. length x.2.now ≤ length bytes.now) }
{
    let mut workers = Vec::with_capacity(alloc, room(u64::from(count), bytes, WORKER_LEN))?;
    let mut rest = bytes;
    let mut seen = served;
    for worker in 0..count {
        let (tasks, serves, after) = match worker_at(alloc, total, phase, worker, seen, rest) {
            Ok(found) => found,
            Err(fault) => return Err(fault),
        };
        workers.push(tasks)?;
        seen = serves;
        rest = after;
    }
    Ok((workers, seen, rest))
}

/// A phase.
#[tactic(auto, unfolding(crate::specs::FeedReading::phase_at))]
fn phase_at(
    alloc: Global,
    total: usize,
    phase: u16,
    served: bool,
    bytes: &[u8],
) -> Result<(Phase, bool, &[u8]), FeedFault>
    requires { length bytes.now ≤ total }
    ensures exact { GivesUnless Memory (λ x. (x.0, record { served = x.1; bytes = x.2.now })) result
        (spec.phase_at total phase (record { served = served; bytes = bytes.now })) }
    ensures rest { IfOk result (λ x. length x.2.now ≤ length bytes.now) }
{
    let (count, rest) = limited_at(total, 2, 1, 16, bytes)?;
    match workers_at(alloc, total, phase, count as u16, served, rest) {
        Ok((workers, seen, rest)) => {
            let workers = Workers::from(workers);
            Ok((Phase { workers }, seen, rest))
        }
        Err(fault) => Err(fault),
    }
}

/// So many phases.
fn phases_at(
    alloc: Global,
    total: usize,
    count: u16,
    bytes: &[u8],
) -> Result<(Vec<Phase>, &[u8]), FeedFault>
    requires { length bytes.now ≤ total }
    ensures exact { GivesUnless Memory (λ x. (x.0.items, x.1.now)) result (spec.phases_at total count bytes.now) }
    ensures rest { IfOk result (λ x. length x.1.now ≤ length bytes.now) }
{
    let mut phases = Vec::with_capacity(alloc, room(u64::from(count), bytes, PHASE_LEN))?;
    let mut rest = bytes;
    let mut seen = false;
    for phase in 0..count {
        let (read, serves, after) = match phase_at(alloc, total, phase, seen, rest) {
            Ok(found) => found,
            Err(fault) => return Err(fault),
        };
        phases.push(read)?;
        seen = serves;
        rest = after;
    }
    Ok((phases, rest))
}

#[tactic(auto, unfolding(crate::specs::FeedReading::feed_in))]
fn feed_in(alloc: Global, bytes: &[u8]) -> Result<Feed, FeedFault>
    ensures { GivesUnless Memory (λ feed. feed) result (spec.feed_in bytes.now) }
{
    let total = bytes.len();
    let (magic, rest) = number_at(cut(total), 4, bytes)?;
    if magic != MAGIC {
        return Err(FeedFault::Magic);
    }
    let (count, rest) = limited_at(total, 2, 0, 4096, rest)?;
    match phases_at(alloc, total, count as u16, rest) {
        Ok((phases, [])) => {
            let phases = Phases::from(phases);
            Ok(Feed { phases })
        }
        Ok((_, rest)) => Err(FeedFault::Extra {
            at: (total - rest.len()) as u64,
        }),
        Err(fault) => Err(fault),
    }
}

/// Reads a feed. Each bag and path in it is copied once, and no more room is taken for a list than the bytes that
/// are left can fill.
pub fn read_feed(alloc: Global, bytes: &[u8]) -> Result<Feed, FeedFault>
    // What is read is spelled so.
    ensures found { IfOk result (λ feed. IsFeed feed × IsFeedFit feed × (bytes.now ≡ feed_text feed)) }

    // What is spelled so is read, unless memory runs out.
    ensures only { (feed : Feed) → IsFeed feed → IsFeedFit feed → bytes.now ≡ feed_text feed
        → GivesUnless Memory (λ f. f) result (Ok feed) }

    // Which fault it is.
    ensures exact { GivesUnless Memory (λ f. f) result (spec.feed_in bytes.now) }
{
    feed_in(alloc, bytes)
}
