//! The command `run`.
ghost use Rattle.std.specs.Prelude.{◌≡◌, []};
ghost use Rattle.cd_fan.specs.Fans.{HaveGotBytes};
ghost use Rattle.cd_feed.specs.Feeds.{IsFeedFit};
ghost use Rattle.cd_feed_call.specs.Told.{FeedEnds, NotFallen};
ghost use Rattle.cd_feed_call.specs.Replaying.{RunEnds};

use crate::feed::take_feed;
use crate::telling::tell;
use cd_base::{Memory, Sink, Source};
use cd_cell::Hash32;
use cd_command::{Finished, Status, open_store};
use cd_core::Core;
use cd_fan::{Client, SliceClient};
use cd_feed::Feed;
use cd_keeper::Keeper;
use cd_run::Holdup;
use cd_threads::run_feed;
use std::alloc::Global;
use std::sync::Wait;
use std::thread::Threads;

/// Does a feed on threads over an opened core, and tells of it.
fn work_on_threads<
    O: Sink,
    K: Keeper + Send,
    H: Hash32 + Send + Sync,
    P: Holdup,
    R: Threads + Wait + Sync,
>(
    rt: &R,
    alloc: Global,
    core: Core<K, H>,
    feed: &Feed,
    out: &mut O,
    clients: &mut Vec<Client>,
    holdup: &P,
) -> (Core<K, H>, Status)
    requires fit { IsFeedFit feed.now }
    requires none { core.journal ≡ [] }
    requires fresh { HaveGotBytes (λ c. got c) 0 clients.old.items }
    ensures start { result.0.start ≡ core.start }
    ensures ends { FeedEnds H.digest_of K.held (λ c. got c) (λ c. steady c) result.0.start result.0.journal feed.now
        clients.old.items clients.new.items O.Sink out.old out.new NotFallen
        (K.faults core.start.keeper.value) (K.faults result.0.keeper) result.1 }
{
    let handed = clients.len();
    let (mut core, ended) = run_feed(rt, alloc, core, feed, clients, holdup);
    let ends = match ended {
        Ok(ends) => ends,
        Err(Memory) => return (core, Status::Memory),
    };
    let status = tell(alloc, &mut core, feed, &ends, clients.len() == handed, out);
    (core, status)
}

/// The command `run`: as `replay`, but the workers of a phase do their tasks side by side, each on a thread of its own where
/// one can be made. It may wait. Whatever happens, the keeper comes back.
pub fn run<
    S: Source,
    O: Sink,
    K: Keeper + Send,
    H: Hash32 + Send + Sync,
    P: Holdup,
    R: Threads + Wait + Sync,
>(
    rt: &R,
    alloc: Global,
    input: &mut S,
    out: &mut O,
    keeper: K,
    clients: &mut Vec<Client>,
    holdup: &P,
) -> Finished<K, H>
    requires fresh { HaveGotBytes (λ c. got c) 0 clients.old.items }
    ensures { RunEnds H.digest_of S.Source O.Sink K.Keeper (λ c. got c) (λ c. steady c)
        input.old input.new out.old out.new keeper result.keeper
        clients.old.items clients.new.items result.journal.items result.status }
{
    let feed = match take_feed(alloc, input) {
        Ok(feed) => feed,
        Err(status) => return Finished::of(alloc, status, keeper),
    };
    let core = match open_store::<K, H>(alloc, keeper) {
        Ok(core) => core,
        Err(finished) => return finished,
    };
    let (core, status) = work_on_threads(rt, alloc, core, &feed, out, clients, holdup);
    let (keeper, journal) = core.close();
    Finished {
        status,
        keeper,
        journal,
    }
}
