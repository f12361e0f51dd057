/// The most bits of a cell (TVM documentation, "Cells").
pub const MOST_BITS: u16 = 1023;

/// The greatest depth that a cell has at any level.
pub const GREATEST_DEPTH: u32 = 1024;

/// The most cells of a bag.
pub const MOST_CELLS: u32 = 1_048_576;
