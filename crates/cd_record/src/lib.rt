//! Records: the bytes under which a cell is stored, with the count of the references to it.
#![tactic(auto)]

mod laws;
mod limits;
mod reading;
mod record;
mod record_fault;
mod writing;

pub use laws::a_text_has_one_record;
pub use limits::GREATEST_COUNT;
pub use reading::{decode, version_of};
pub use record::Record;
pub use record_fault::RecordFault;
pub use writing::{encode, encode_cell, encode_v1};
