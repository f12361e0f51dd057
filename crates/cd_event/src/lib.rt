//! Events of the core and the journal's entries, and the traits by which workers take turns and look up cells.
#![tactic(auto)]

mod answers;
mod entry;
mod event;
mod faults;
mod journal;
mod look_up;
mod names;
mod pin_look;
mod refusal;
mod turns;

pub use answers::{Pinned, Stored};
pub use entry::{Entry, Reply};
pub use event::Event;
pub use faults::{ExpireFault, LookFault, MergeFault, PinFault, UnpinFault, ZeroFault};
pub use journal::Journal;
pub use look_up::LookUp;
pub use names::{At, Who};
pub use pin_look::PinLook;
pub use refusal::Refusal;
pub use turns::Turns;
