/// Bits of the flag byte (TL-B, `serialized_boc`): an index stands before the cell data.
pub const HAS_INDEX: u8 = 0x80;

/// A CRC-32C of all bytes before it ends the bag.
pub const HAS_CRC: u8 = 0x40;

/// Each entry of the index is doubled, with a free lowest bit.
pub const HAS_CACHE_BITS: u8 = 0x20;

/// The lower of two bits that are zero.
pub const ZERO_BITS: u8 = 0x08;

/// How a bag of cells writes its numbers, and which parts it has (TL-B, `serialized_boc`).
#[derive(Clone, Copy, Debug, PartialEq, Eq)]
pub struct Shape {
    /// The bytes of a number of cells or of a cell's number, 1 to 4.
    pub size: u8,
    /// The bytes of an offset in the cell data, 1 to 8.
    pub off_bytes: u8,
    /// Whether the ends of the cells stand before the cell data.
    pub has_index: bool,
    /// Whether a CRC-32C of all bytes before it ends the bag.
    pub has_crc: bool,
    /// Whether each entry of the index is doubled, with a free lowest bit.
    pub has_cache_bits: bool,
}
