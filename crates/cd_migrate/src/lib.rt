//! Records of the first version written anew in the second.
#![tactic(auto)]

mod laws;
mod limits;
mod migrate_fault;
mod migrated;
mod migrating;
mod rewriting;

pub use laws::{a_migration_keeps_the_world, a_whole_migration_gives_the_image};
pub use limits::BATCH_RECORDS;
pub use migrate_fault::MigrateFault;
pub use migrated::Migrated;
pub use migrating::migrate;
