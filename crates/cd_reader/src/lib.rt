//! A cached, lazy reader of the cells of one state.
#![tactic(auto)]

mod cache;
mod loading;
mod reader;
mod walk_fault;

pub use reader::Reader;
pub use walk_fault::WalkFault;
