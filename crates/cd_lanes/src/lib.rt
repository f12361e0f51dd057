//! What a worker does in a phase of a feed: its tasks in their order, over any turns.
#![tactic(auto)]

mod laws;
mod tasks;

pub use laws::a_done_feed_leaves_no_pin;
pub use tasks::do_tasks;
