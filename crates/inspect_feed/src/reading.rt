ghost use Rattle.std.specs.Prelude.{IfOk, IfErr};
ghost use Rattle.inspect_feed.specs.FeedVerdicts.{IsFeedOf, IsWhyNoFeed};

use cd_feed::{Feed, FeedFault, read_feed};
use std::alloc::{AllocError, Global};

/// The feed that bytes are, or why they are none, unless memory runs out.
pub fn feed_of(alloc: Global, bytes: &[u8]) -> Result<Result<Feed, FeedFault>, AllocError>
    ensures feed { IfOk result (λ answer. IfOk answer (IsFeedOf bytes.now)) }
    ensures refused { IfOk result (λ answer. IfErr answer (IsWhyNoFeed bytes.now)) }
{
    match read_feed(alloc, bytes) {
        Ok(feed) => Ok(Ok(feed)),
        Err(FeedFault::Memory) => Err(AllocError),
        Err(fault) => Ok(Err(fault)),
    }
}
