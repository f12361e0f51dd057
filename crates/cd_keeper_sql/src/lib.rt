//! A keeper over a database, whose file sqlite3 reads too.
#![tactic(auto)]

mod database;
mod file;
mod keeper;
mod keys;
mod statements;

pub use database::Database;
pub use file::SqlKeeper;
pub use keeper::SqlKeeperOver;
pub use statements::Statements;
