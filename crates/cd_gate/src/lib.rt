//! A gate through which one value goes from turn to turn among threads, one holder at a time, with one history of all
//! turns.
#![tactic(auto)]

mod bells;
mod gate;
mod journaled;
mod plays;
mod rule;
mod seat_state;
mod steps;

pub use gate::{Gate, GateSeat};
pub use journaled::{Deed, Journaled};
