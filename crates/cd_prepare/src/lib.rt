//! Prepared values: lists of the new cells of a state, ready to be stored.
#![tactic(auto)]

mod laws;
mod listing;
mod merged;
mod prepare_fault;
mod reach;
mod start;
mod update;
mod zero;

pub use laws::{all_cells_of_a_state_stand_for_it, new_cells_stand_for_the_applied_tree};
pub use merged::prepare_merged;
pub use prepare_fault::PrepareFault;
pub use update::prepare_update;
pub use zero::{all_cells, prepare_zero};
