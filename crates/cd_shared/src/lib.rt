//! A core that threads share: each call is one turn at a gate, and all turns stand in one history.
#![tactic(auto)]

mod at_db;
mod calls;
mod deeds;
mod held_core;
mod shared;

pub use at_db::AtDb;
pub use held_core::HeldCore;
pub use shared::{DbSeat, SharedDb};
