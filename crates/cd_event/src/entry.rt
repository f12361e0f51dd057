use crate::event::Event;
use crate::names::Who;
use crate::refusal::Refusal;
use cd_cell::Hash32;

/// What the core answered to an event.
#[derive(Clone, Copy, Debug)]
pub enum Reply {
    /// The answer to a zero state and to a merge.
    Stored,
    /// The pin's number.
    Pinned { pin: u64 },
    Looked,
    /// Whether the block went with its last pin.
    Unpinned { collected: bool },
    /// How many blocks went or are leaving.
    Expired { gone: u64 },
    Refused(Refusal),
}

/// An event and what was answered to it. A prepared value is kept in its entry, so that a journal can be
/// replayed by itself.
#[derive(Drop)]
pub struct Entry<H: Hash32> {
    pub who: Who,
    pub event: Event<H>,
    pub reply: Reply,
}
