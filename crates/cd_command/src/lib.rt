//! What the commands of the program share: how a call ends, reading the input, printing, and opening a store.
#![tactic(auto)]

mod finished;
mod limits;
mod naming;
mod opening;
mod printing;
mod reading;
mod status;

pub use cd_words::WordFault;
pub use finished::Finished;
pub use limits::INPUT_LIMIT;
pub use naming::FIRST_TASK;
pub use opening::open_store;
pub use printing::print;
pub use reading::read_input;
pub use status::{InputFault, Status, TopRefusal};
