//! The keeper of the store: two tables of bytes that change by whole batches, and two keepers in memory.
#![tactic(auto)]

mod batch;
mod fault;
mod keeper;
mod memory;
mod steady;
mod table;
mod tables;

pub use batch::Batch;
pub use fault::KeepFault;
pub use keeper::Keeper;
pub use memory::MemoryKeeper;
pub use steady::SteadyKeeper;
