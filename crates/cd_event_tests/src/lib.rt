//! Tests of events and looks, over a small worker of their own.
#![tactic(auto)]

mod looking;
mod tiny;

pub use looking::{look_twice, twice};
pub use tiny::Tiny;

#[cfg(test)]
mod tests;
