//! The workers of a phase, each in a lane of its own, on a thread of its own where one can be made.
#![tactic(auto)]

mod lane;
mod phase;

pub use lane::Lane;
pub use phase::run_phase;
