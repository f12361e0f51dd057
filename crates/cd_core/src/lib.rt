//! The core of the store on one thread: event calls over a keeper, a world and a journal, each one step of the machine.
#![tactic(auto)]

mod body;
mod collecting;
mod expiring;
mod knowing;
mod looking;
mod merging;
mod one_thread;
mod pinning;
mod placing;
mod replying;
mod settling;
mod start;
mod storing;
mod totalling;
mod unpinning;

pub use body::Core;
pub use one_thread::OneThread;
pub use start::CoreStart;
