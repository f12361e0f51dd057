use cd_base::Hash256;
use cd_cell::ChildInfo;

/// A pin that was given.
#[derive(Clone, Copy, Debug, PartialEq, Eq)]
pub struct Pinned {
    pub pin: u64,
    /// What the root of the block's state shows. Its mask is 0, so it has the root's hash and depth at each level.
    pub root: ChildInfo,
}

/// A state that was stored.
#[derive(Clone, Copy, Debug, PartialEq, Eq)]
pub struct Stored {
    /// The hash of the state's root cell.
    pub root: Hash256,
    /// How many cells the prepared value listed.
    pub cells: u64,
}
