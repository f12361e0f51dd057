//! Boxed clients that take the export text of a state, slice by slice.
#![tactic(auto)]

mod client;
mod client_end;
mod fan;
mod fan_fault;
mod file_client;
mod memory_client;

pub use client::SliceClient;
pub use client_end::ClientEnd;
pub use fan::{Client, fan_out};
pub use fan_fault::FanFault;
pub use file_client::{FileClient, FileFault};
pub use memory_client::MemoryClient;
