/// What the header of a bag counts.
#[derive(Clone, Copy)]
pub(crate) struct Counts {
    pub cells: u32,
    pub roots: u32,
    /// The bytes of the cell data.
    pub total: u64,
}
