ghost use Rattle.std.specs.Prelude.{◌≡◌, []};

use crate::status::Status;
use cd_cell::Hash32;
use cd_event::Entry;
use std::alloc::Global;

/// How a command ended, with the keeper that it was given.
pub struct Finished<K, H: Hash32> {
    /// How it ended.
    pub status: Status,
    /// The keeper.
    pub keeper: K,
    /// The events of the command with what was answered to each, the oldest first.
    pub journal: Vec<Entry<H>>,
}

impl<K, H: Hash32> Finished<K, H> {
    /// The end of a command without an event.
    pub fn of(alloc: Global, status: Status, keeper: K) -> Finished<K, H>
        ensures status { result.status ≡ status }
        ensures keeper { result.keeper ≡ keeper }
        ensures journal { result.journal.items ≡ [] }
    {
        Finished {
            status,
            keeper,
            journal: Vec::new(alloc),
        }
    }
}
