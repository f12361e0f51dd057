//! What is said of bags of cells: what they have or why they are none, what their roots show, and their export text.
#![tactic(auto)]

mod export;
mod levels;
mod texts;
mod verdict;

pub use levels::{Levels, levels_of};
pub use texts::{export_text, levels_text, lines_text, raw_levels_text, raw_text};
pub use verdict::{Verdict, export_of, verdict_of};
