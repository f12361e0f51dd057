use cd_cell::Face;

/// A stored cell: its face, and how many references there are to it.
#[derive(Clone, Copy)]
pub struct Record {
    /// The references from stored cells, one for each place, and the blocks of which it is the root; at least 1.
    pub count: u64,
    /// The cell without the cells below it.
    pub face: Face,
}
