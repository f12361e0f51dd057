/// The kind of a cell (TVM documentation, "Cells").
#[derive(Clone, Copy, Debug, PartialEq, Eq)]
pub enum Kind {
    /// A cell with any bits and references.
    Ordinary,
    /// A pruned branch: it stands for a cell that isn't shown, by hashes and depths.
    Pruned,
    /// A library reference: it names a cell by its hash.
    Library,
    /// A Merkle proof, over one cell.
    Proof,
    /// A Merkle update, over an old cell and a new one.
    Update,
}
