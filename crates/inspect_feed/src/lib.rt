//! What is said of feeds: their tasks, or why bytes are none.
#![tactic(auto)]

mod reading;
mod texts;

pub use reading::feed_of;
pub use texts::feed_text;
