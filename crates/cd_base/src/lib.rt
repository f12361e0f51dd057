//! What every crate of the store stands on: hashes, sources and sinks of bytes, and checksums.
#![tactic(auto)]

mod answers;
mod byte_reader;
mod byte_writer;
mod checksum;
mod counts;
mod hash;
mod lists;
mod memory_sink;
mod memory_source;
mod numbers;
mod read_all_fault;
mod reading;
mod sink;
mod source;
mod std_adapters;
mod whole;

pub use answers::{Failed, Memory};
pub use byte_reader::ByteReader;
pub use byte_writer::ByteWriter;
pub use checksum::{Crc, crc32c};
pub use counts::one_more;
pub use hash::Hash256;
pub use lists::Listed;
pub use memory_sink::{MemorySink, SteadySink};
pub use memory_source::{MemorySource, SteadySource};
pub use numbers::{from_be, from_le};
pub use read_all_fault::ReadAllFault;
pub use reading::{byte_at, chunk_at, number_at, part_at};
pub use sink::Sink;
pub use source::Source;
pub use std_adapters::{StdSink, StdSource};
pub use whole::{read_all, write_all};
