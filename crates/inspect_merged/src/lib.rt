//! What is said of Merkle updates of the joined tree of two states: what they bring, or why they are refused.
#![tactic(auto)]

mod both;
mod merged_verdict;
mod texts;

pub use both::BothStates;
pub use merged_verdict::merged_verdict_of;
pub use texts::merged_text;
