//! The command `replay`.
ghost use Rattle.std.specs.Prelude.{◌≡◌, []};
ghost use Rattle.cd_fan.specs.Fans.{HaveGotBytes};
ghost use Rattle.cd_feed.specs.Feeds.{IsFeedFit};
ghost use Rattle.cd_command.specs.Printing.{NoFault};
ghost use Rattle.cd_feed_call.specs.Told.{FeedEnds};
ghost use Rattle.cd_feed_call.specs.Replaying.{ReplayEnds};

use crate::feed::take_feed;
use crate::telling::tell;
use cd_base::{Memory, Sink, Source};
use cd_cell::Hash32;
use cd_command::{Finished, Status, open_store};
use cd_core::Core;
use cd_fan::{Client, SliceClient};
use cd_feed::Feed;
use cd_keeper::Keeper;
use cd_replay::do_feed;
use std::alloc::Global;

/// Does a feed over an opened core, and tells of it.
fn work<O: Sink, K: Keeper, H: Hash32>(
    alloc: Global,
    core: &mut Core<K, H>,
    feed: &Feed,
    out: &mut O,
    clients: &mut Vec<Client>,
) -> Status
    requires fit { IsFeedFit feed.now }
    requires none { core.old.journal ≡ [] }
    requires fresh { HaveGotBytes (λ c. got c) 0 clients.old.items }
    ensures start { core.new.start ≡ core.old.start }
    ensures ends { FeedEnds H.digest_of K.held (λ c. got c) (λ c. steady c) core.new.start core.new.journal feed.now
        clients.old.items clients.new.items O.Sink out.old out.new NoFault
        (K.faults core.old.keeper) (K.faults core.new.keeper) result }
{
    let handed = clients.len();
    let ends = match do_feed(alloc, core, feed, clients) {
        Ok(ends) => ends,
        Err(Memory) => return Status::Memory,
    };
    tell(alloc, core, feed, &ends, clients.len() == handed, out)
}

/// The command `replay`: reads a feed to the end of the input, opens the store, does the tasks of the feed one after
/// another, and writes the report. Nothing is opened before the input is found good. A task that is refused is a line of
/// the report, and the tasks behind it are done.
pub fn replay<S: Source, O: Sink, K: Keeper, H: Hash32>(
    alloc: Global,
    input: &mut S,
    out: &mut O,
    keeper: K,
    clients: &mut Vec<Client>,
) -> Finished<K, H>
    requires fresh { HaveGotBytes (λ c. got c) 0 clients.old.items }
    ensures { ReplayEnds H.digest_of S.Source O.Sink K.Keeper (λ c. got c) (λ c. steady c)
        input.old input.new out.old out.new keeper result.keeper
        clients.old.items clients.new.items result.journal.items result.status }
{
    let feed = match take_feed(alloc, input) {
        Ok(feed) => feed,
        Err(status) => return Finished::of(alloc, status, keeper),
    };
    let mut core = match open_store::<K, H>(alloc, keeper) {
        Ok(core) => core,
        Err(finished) => return finished,
    };
    let status = work(alloc, &mut core, &feed, out, clients);
    let (keeper, journal) = core.close();
    Finished {
        status,
        keeper,
        journal,
    }
}
