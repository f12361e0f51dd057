//! A generator of feeds: three chains of blocks over states of one shape, with readers, slices and expiries.
#![tactic(auto)]

mod cell;
mod cells;
mod chain;
mod export;
mod generator;
mod names;
mod phases;
mod states;
mod updates;

pub use generator::make_feed;
