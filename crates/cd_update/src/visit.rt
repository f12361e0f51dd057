/// An entry of a bag at a Merkle depth from 0 to 3.
#[derive(Clone, Copy, Debug, PartialEq, Eq)]
pub(crate) struct Node {
    pub entry: u32,
    pub depth: u8,
}

/// An entry that was reached, and the place of the parent that it was reached by.
#[derive(Clone, Copy, Debug)]
pub(crate) struct Visit {
    pub node: Node,
    pub parent: u32,
    pub place: u8,
}
