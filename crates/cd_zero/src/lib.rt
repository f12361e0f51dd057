//! The command `zero`: a bag is read, prepared, and stored as a zero state.
#![tactic(auto)]

mod command;
mod name;
mod preparing;
mod storing;

pub use command::zero;
pub use name::ZeroName;
