//! What is said of a database file of the store: how much it holds, or why it isn't one.
#![tactic(auto)]

mod files;
mod verdict;

pub use files::verdict_of_files;
pub use verdict::{StoreVerdict, verdict_of};
