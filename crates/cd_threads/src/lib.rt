//! A feed on threads over a core that they share: phase after phase, and in each its workers side by side.
#![tactic(auto)]

mod ending;
mod feed;
mod joining;
mod phase;
mod serving;
mod splitting;

pub use feed::run_feed;
