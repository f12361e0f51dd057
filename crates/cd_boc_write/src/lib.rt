//! Bags of cells as text: their frame, the texts of their cells, and the one export text of a tree.
#![tactic(auto)]

mod cell_text;
mod export;
mod layout;
mod numbers;
mod placed_hash;
mod places;
mod shape;
mod write_fault;

pub use cell_text::put_cell;
pub use export::{lay_out, write_bag};
pub use layout::Layout;
pub use placed_hash::PlacedHash;
pub use places::{keys_of, place_among};
pub use shape::{HAS_CACHE_BITS, HAS_CRC, HAS_INDEX, Shape, ZERO_BITS};
pub use write_fault::WriteFault;
