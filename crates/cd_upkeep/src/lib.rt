//! The commands that look after a store: `check`, which reads it whole, and `migrate`, which rewrites old records.
#![tactic(auto)]

mod checking;
mod migration;
mod texts;

pub use checking::check;
pub use migration::migrate_store;
