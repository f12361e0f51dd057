//! The words of the program: its commands, and what they ask for.
#![tactic(auto)]

mod asked;
mod commands;
mod mode;

pub use asked::{Asked, read_words};
pub use mode::Mode;
