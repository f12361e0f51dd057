//! Cells of the TON blockchain: faces of cells, masks, and the hashes and depths at the levels 0 to 3.
#![tactic(auto)]

mod bag;
mod bits;
mod cell_fault;
mod check;
mod clashes;
mod descriptors;
mod digest;
mod digest_text;
mod export_key;
mod face;
mod index;
mod info;
mod kind;
mod levels;
mod limits;
mod mask;
mod new_cell;
mod prepared;
mod pruned;
mod put;
mod shown;
mod split;
mod stated;

pub use bag::Bag;
pub use bits::Bits;
pub use cd_base::Listed;
pub use cell_fault::CellFault;
pub use clashes::least_clash;
pub use digest::{Hash32, Sha, WeakSum};
pub use export_key::{ExportKey, ExportRank, sort_keys};
pub use face::Face;
pub use index::Index;
pub use info::ChildInfo;
pub use kind::Kind;
pub use levels::{kind_of, plain_mask};
pub use limits::{GREATEST_DEPTH, MOST_BITS, MOST_CELLS};
pub use mask::Mask;
pub use new_cell::NewCell;
pub use prepared::Prepared;
pub use shown::face_info;
pub use split::split_face;
