//! The commands `replay` and `run`: the tasks of the feed of the input are done over an opened store, on one thread or with
//! the workers of a phase side by side.
#![tactic(auto)]

mod command;
mod feed;
mod running;
mod telling;

pub use command::replay;
pub use running::run;
