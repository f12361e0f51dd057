//! What was done of a feed is told.
ghost use Rattle.std.specs.Prelude.{◌≡◌, Some, IfErr, IfOk, string_bytes};
ghost use Rattle.std.specs.List.{list_any};
ghost use Rattle.cd_feed.specs.Feeds.{IsFeedFit};
ghost use Rattle.cd_event.specs.Turning.{is_keeper};
ghost use Rattle.cd_run.specs.ReportText.{AreBeside, ends_of};
ghost use Rattle.cd_keeper.specs.Keeping.{KeepsHeld};
ghost use Rattle.cd_feed_call.specs.Telling.{IsTextOf, IsTold, IsUntotalled, status_by};

use cd_base::{Memory, Sink};
use cd_cell::Hash32;
use cd_command::{Status, print};
use cd_core::Core;
use cd_event::{Entry, Refusal, Reply, UnpinFault};
use cd_feed::Feed;
use cd_keeper::Keeper;
use cd_run::{Outcome, report};
use std::alloc::Global;

/// Whether a reply says that the keeper failed.
fn is_failure(reply: &Reply) -> bool
    ensures { result ≡ is_keeper (Some reply.now) }
{
    matches!(reply, Reply::Refused(Refusal::Keeper))
}

/// Whether the keeper failed one of some entries.
fn has_failed<H: Hash32>(journal: &[Entry<H>]) -> bool
    ensures { result ≡ list_any (λ entry. is_keeper (Some entry.reply)) journal.now }
{
    journal.iter().any(|entry| is_failure(&entry.reply))
}

/// The text of the report: how each task ended, and the totals of the store at the end. It takes the totals, which reads
/// every record once; else the status of a call without them.
fn text_of<K: Keeper, H: Hash32>(
    alloc: Global,
    core: &mut Core<K, H>,
    feed: &Feed,
    ends: &[Vec<Vec<Outcome>>],
) -> Result<String, Status>
    requires fit { IsFeedFit feed.now }
    requires beside { AreBeside feed.now.phases ends.now }
    ensures start { core.new.start ≡ core.old.start }
    ensures journal { core.new.journal ≡ core.old.journal }
    ensures keeps { KeepsHeld K.held K.trail K.batches core.old.keeper core.new.keeper }
    ensures made { IfOk result (λ text. IsTextOf H.digest_of K.held K.faults feed.now (ends_of ends.now)
        core.old core.new (string_bytes text)) }
    ensures unmade { IfErr result (IsUntotalled (K.faults core.old.keeper) (K.faults core.new.keeper)) }
{
    let totals = match core.totals() {
        Ok(totals) => totals,
        Err(UnpinFault::Keeper) => return Err(Status::KeeperFault),
        Err(_) => return Err(Status::Memory),
    };
    match report(alloc, feed, ends, &totals) {
        Ok(text) => Ok(text),
        Err(Memory) => Err(Status::Memory),
    }
}

/// The status of a call whose report was written so: a fault of the keeper comes first, and then that of a client.
fn status_of(failed: bool, all_left: bool, written: Status) -> Status
    ensures { result ≡ status_by failed all_left written }
{
    match (failed, all_left) {
        (true, _) => Status::KeeperFault,
        (false, false) => Status::ClientFault,
        (false, true) => written,
    }
}

/// Tells how the tasks of a feed ended: writes the report. It is made first, so nothing is written where memory runs out or
/// where the keeper fails at the totals.
pub(crate) fn tell<O: Sink, K: Keeper, H: Hash32>(
    alloc: Global,
    core: &mut Core<K, H>,
    feed: &Feed,
    ends: &[Vec<Vec<Outcome>>],
    all_left: bool,
    out: &mut O,
) -> Status
    requires fit { IsFeedFit feed.now }
    requires beside { AreBeside feed.now.phases ends.now }
    ensures start { core.new.start ≡ core.old.start }
    ensures journal { core.new.journal ≡ core.old.journal }
    ensures told { IsTold H.digest_of K.held K.faults O.Sink feed.now (ends_of ends.now) all_left
        core.old core.new out.old out.new result }
{
    let failed = has_failed(core.journal());
    let text = match text_of(alloc, core, feed, ends) {
        Ok(text) => text,
        Err(status) => return status,
    };
    let written = print(out, text.as_bytes());
    status_of(failed, all_left, written)
}
