//! Feeds: the tasks of workers in phases, read from bytes and written back.
#![tactic(auto)]

mod feed;
mod feed_fault;
mod fields;
mod laws;
mod reading;
mod tasks;
mod writing;

pub use feed::{Bytes, Feed, Phase, Phases, Task, Tasks, Workers};
pub use feed_fault::FeedFault;
pub use laws::a_text_has_one_feed;
pub use reading::read_feed;
pub use writing::write_feed;
