//! A feed's tasks, done on one thread over a core: phase after phase, worker after worker, task after task.
#![tactic(auto)]

mod feed;
mod laws;
mod phase;
mod worker;

pub use feed::do_feed;
pub use laws::{
    a_done_feed_is_covered, a_done_feed_leaves_a_core_free, a_stopped_feed_is_covered_so_far,
};
