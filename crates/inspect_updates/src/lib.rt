//! What is said of Merkle updates of a state: what they bring, or why they are refused.
#![tactic(auto)]

mod old_state;
mod refusal;
mod texts;
mod update_verdict;

pub use old_state::{OldState, read_state};
pub use refusal::Refusal;
pub use texts::{read_state_line, updates_text};
pub use update_verdict::{UpdateVerdict, update_verdict_of};
