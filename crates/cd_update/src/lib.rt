//! Merkle updates: the old half paired with an old tree, and the new half grafted onto what it showed.
#![tactic(auto)]

mod agree;
mod graft_fault;
mod grafting;
mod half;
mod hashes;
mod hidden;
mod hiding;
mod known;
mod own;
mod pair_fault;
mod pairing;
mod update;
mod update_fault;
mod upto;
mod visit;
mod walk;
mod wanted;

pub use graft_fault::GraftFault;
pub use grafting::{Grafted, graft};
pub use known::Known;
pub use pair_fault::PairFault;
pub use pairing::{pair_below, pair_old};
pub use update::Update;
pub use update_fault::UpdateFault;
