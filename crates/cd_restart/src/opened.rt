use cd_block::Descr;
use cd_world::Rows;

/// What an opened store holds.
#[derive(Drop)]
pub struct Opened {
    /// The blocks, in the order of their ids, those that are leaving among them.
    pub blocks: Rows<Descr>,
    /// The number of distinct cells.
    pub cells: u64,
    /// All references to cells together, no more than the last u64.
    pub counts: u64,
}
