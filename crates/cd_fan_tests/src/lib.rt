//! Tests of the reader, of slices and of clients, over a look in memory.
#![tactic(auto)]

mod listed;
mod watched;

pub use listed::ListedLook;
pub use watched::{Count, Failing, Watching};

#[cfg(test)]
mod pieces;
#[cfg(test)]
mod tests;
#[cfg(test)]
mod vectors;
