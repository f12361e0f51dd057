use std::alloc::{AllocError, AllocFailed};
use thiserror::Error;

/// Why bytes are no feed: the first field at fault, from left to right. Places are counted in bytes from 0.
#[derive(Clone, Copy, Debug, PartialEq, Eq, Error)]
pub enum FeedFault {
    /// The first four bytes aren't the ASCII text `cdf1`.
    #[error("not a feed")]
    Magic,
    /// A field passes the end; `at` is the number of bytes given.
    #[error("the feed is cut at {at}")]
    Cut { at: u64 },
    /// A number of phases, workers, tasks or tops, or the length of a path or of a bag, is over its limit, or there are
    /// 0 workers; `at` is the place of that number.
    #[error("a number over its limit at {at}")]
    Limit { at: u64 },
    /// A task of another kind, a second Serve, a step over 3, a slice size outside its range, or tops of a block that is
    /// none of the masterchain. Phases, workers and tasks are counted from 0.
    #[error("phase {phase}, worker {worker}: task {task} is at fault")]
    Task { phase: u16, worker: u16, task: u16 },
    /// Bytes stand behind the last phase; `at` is the place where the feed ends.
    #[error("bytes stand behind the feed at {at}")]
    Extra { at: u64 },
    /// Memory ran out.
    #[error("out of memory")]
    Memory,
}

impl From<AllocError> for FeedFault {
    ghost use Rattle.std.specs.Prelude.{◌≡◌};
    ghost use Rattle.cd_feed.specs.declared.feed_fault.FeedFault.TheVariants.{Memory};

    ghost from_gives = { λ _ e. e ≡ Memory };

    fn from(_error: AllocError) -> FeedFault {
        FeedFault::Memory
    }
}

impl<T: Drop> From<AllocFailed<T>> for FeedFault {
    ghost use Rattle.std.specs.Prelude.{◌≡◌};
    ghost use Rattle.cd_feed.specs.declared.feed_fault.FeedFault.TheVariants.{Memory};

    ghost from_gives = { λ _ e. e ≡ Memory };

    fn from(_error: AllocFailed<T>) -> FeedFault {
        FeedFault::Memory
    }
}
