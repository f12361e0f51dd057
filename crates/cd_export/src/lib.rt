//! The command `export`: a block's state is sent to clients as a bag of cells.
#![tactic(auto)]

mod command;
mod serving;
mod telling;

pub use command::export;
