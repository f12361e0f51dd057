//! Tasks of a feed over any worker's turns: their entries, their outcomes, and the text of the report.
#![tactic(auto)]

mod block_task;
mod expire_task;
mod gather;
mod holdup;
mod laws;
mod merge_words;
mod merged_task;
mod outcome;
mod parent;
mod pinned;
mod read_task;
mod reporting;
mod serve_task;
mod slice_task;
mod task;
mod words;
mod zero_task;

pub use holdup::{Holdup, NoHoldup};
pub use laws::{
    a_begun_journal_covers_the_feed_so_far, a_cut_journal_covers_the_feed, a_task_leaves_no_pin,
};
pub use outcome::{Outcome, TaskRefusal};
pub use reporting::report;
pub use task::do_task;
