//! The export text of a state, cut from a store by offsets.
#![tactic(auto)]

mod cell_text;
mod export;
mod faults;
mod gather;
mod listing;
mod numbering;
mod plan;
mod windows;

pub use export::{Export, MOST_SLICE};
pub use faults::{PlanFault, SliceFault};
