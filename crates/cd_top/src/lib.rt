//! The calls that the program makes: from words and bytes to a stored block and printed lines.
#![tactic(auto)]

mod ended;
mod feed;
mod on_threads;
mod once;
mod work;

pub use cd_command::{INPUT_LIMIT, InputFault, Status, TopRefusal, WordFault};
pub use cd_zero::ZeroName;
pub use ended::Ended;
pub use on_threads::celldb_run;
pub use once::celldb_once;
