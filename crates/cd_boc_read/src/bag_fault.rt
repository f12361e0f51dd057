use cd_base::Hash256;
use cd_cell::CellFault;
use std::alloc::{AllocError, AllocFailed};
use thiserror::Error;

/// What keeps bytes from being a bag of cells (TL-B, `serialized_boc`). Where several hold, the first in the order
/// of reading is given.
#[derive(Clone, Copy, Debug, PartialEq, Eq, Drop, Error)]
pub enum BagFault {
    /// The first four bytes are another number than b5ee9c72. Older forms of indexed bags have other numbers.
    #[error("magic number {value:08x}")]
    Magic { value: u32 },
    /// One of the two zero bits of the flag byte is set, or cache bits are announced without an index.
    #[error("flag byte {value:02x}")]
    Flags { value: u8 },
    /// A number isn't of 1 to 4 bytes, or an offset not of 1 to 8.
    #[error("numbers of {size} and offsets of {off_bytes} bytes")]
    Sizes { size: u8, off_bytes: u8 },
    /// The bag ends before its frame does; `at` is the number of its bytes.
    #[error("cut at byte {at}")]
    Cut { at: u64 },
    /// No roots, or more roots than cells.
    #[error("{roots} roots of {cells} cells")]
    Roots { roots: u32, cells: u32 },
    /// Some cells are absent.
    #[error("{absent} absent cells")]
    Absent { absent: u32 },
    /// More than 1,048,576 cells.
    #[error("{cells} cells")]
    Limit { cells: u32 },
    /// A root is no cell of the bag; `root` is its place among the roots.
    #[error("root {root} is no cell")]
    RootIndex { root: u32 },
    /// Bytes stand behind the bag, which ends at `at`.
    #[error("bytes behind the end at byte {at}")]
    Extra { at: u64 },
    /// The checksum that is stated isn't that of the bytes before it.
    #[error("checksum {stated:08x}, not {real:08x}")]
    Crc { stated: u32, real: u32 },
    /// A cell has more than four references.
    #[error("descriptor of cell {cell}")]
    Descriptor { cell: u32 },
    /// The cells don't take just the bytes of the cell data: `stated` is their number, `used` that of the cells
    /// before `cell`, which doesn't fit; where bytes are left, `cell` is the number of all cells.
    #[error("{stated} bytes of cell data, of which {used} stand before cell {cell}")]
    Length { stated: u64, used: u64, cell: u32 },
    /// The last data byte of a cell has no completion, or one that is a whole byte.
    #[error("completion of cell {cell}")]
    Completion { cell: u32 },
    /// A reference doesn't name a cell behind its own.
    #[error("a reference of cell {cell} names no cell behind it")]
    Order { cell: u32 },
    /// The entry of the index isn't the cell's end.
    #[error("index of cell {cell}")]
    Index { cell: u32 },
    /// A pruned branch with stored hashes.
    #[error("stored hashes of the pruned branch {cell}")]
    PrunedHashes { cell: u32 },
    /// A cell isn't well-formed.
    #[error("cell {cell}: {fault}")]
    Cell { cell: u32, fault: CellFault },
    /// The mask that a cell states isn't its mask.
    #[error("mask of cell {cell}")]
    MaskDiffers { cell: u32 },
    /// A stored hash or depth isn't the cell's.
    #[error("a stored hash of cell {cell}")]
    StoredHash { cell: u32 },
    /// Two different cells have this hash; it is the least such hash.
    #[error("two cells of one hash")]
    Clash { hash: Hash256 },
    /// Memory ran out.
    #[error("no memory")]
    Memory,
}

impl From<AllocError> for BagFault {
    ghost use Rattle.std.specs.Prelude.{◌≡◌};
    ghost use Rattle.cd_boc_read.specs.declared.bag_fault.BagFault.TheVariants.{Memory};

    ghost from_gives = { λ _ e. e ≡ Memory };

    fn from(_error: AllocError) -> BagFault {
        BagFault::Memory
    }
}

impl<T: Drop> From<AllocFailed<T>> for BagFault {
    ghost use Rattle.std.specs.Prelude.{◌≡◌};
    ghost use Rattle.cd_boc_read.specs.declared.bag_fault.BagFault.TheVariants.{Memory};

    ghost from_gives = { λ _ e. e ≡ Memory };

    fn from(_error: AllocFailed<T>) -> BagFault {
        BagFault::Memory
    }
}
