//! Opening a store again: what a keeper holds is read whole, and is refused where it isn't the contents of a sound world.
#![tactic(auto)]

mod checks;
mod laws;
mod open_fault;
mod opened;
mod opening;
mod passes;
mod reading;
mod row;
mod rows;
mod scan_fault;
mod settling;

pub use laws::a_scan_is_exact;
pub use open_fault::OpenFault;
pub use opened::Opened;
pub use opening::scan;
pub use scan_fault::ScanFault;
pub use settling::open_core;
