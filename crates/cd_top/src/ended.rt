use cd_cell::Hash32;
use cd_command::Status;
use cd_event::Entry;
use cd_fan::Client;

/// How a call ended, with the keeper and the clients that it was given.
pub struct Ended<K, H: Hash32> {
    /// How it ended.
    pub status: Status,
    /// The keeper.
    pub keeper: K,
    /// The events of the call with what was answered to each, the oldest first.
    pub journal: Vec<Entry<H>>,
    /// The clients that are left.
    pub clients: Vec<Client>,
}
