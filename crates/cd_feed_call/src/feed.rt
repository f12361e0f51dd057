//! The feed that the input is.
ghost use Rattle.std.specs.Prelude.{◌≡◌, IfErr, IfOk};
ghost use Rattle.cd_feed.specs.Feeds.{feed_text, IsFeed, IsFeedFit};
ghost use Rattle.cd_feed_call.specs.Feeding.{IsNoFeed, IsOfFeed, IsRefusal};

use cd_base::Source;
use cd_command::{InputFault, Status, read_input};
use cd_feed::{Feed, FeedFault, read_feed};
use std::alloc::Global;

/// The feed of some bytes, or the status of a call over bytes that are none.
fn feed_of(alloc: Global, bytes: &[u8]) -> Result<Feed, Status>
    ensures found { IfOk result (λ feed. IsFeed feed × IsFeedFit feed × (bytes.now ≡ feed_text feed)) }
    ensures refused { IfErr result (IsRefusal bytes.now) }
{
    match read_feed(alloc, bytes) {
        Ok(feed) => Ok(feed),
        Err(FeedFault::Memory) => Err(Status::Memory),
        Err(fault) => Err(Status::BadInput(InputFault::Feed(fault))),
    }
}

/// The feed that the input is, or the status of a call over one that is none. The bytes are given up once they are read.
pub(crate) fn take_feed<S: Source>(alloc: Global, input: &mut S) -> Result<Feed, Status>
    ensures taken { IfOk result (λ feed. IsOfFeed S.Source feed input.old input.new) }
    ensures fit { IfOk result IsFeedFit }
    ensures refused { IfErr result (IsNoFeed S.Source input.old input.new) }
{
    let bytes = match read_input(alloc, input) {
        Ok(bytes) => bytes,
        Err(status) => return Err(status),
    };
    feed_of(alloc, &bytes)
}
