use cd_base::Hash256;

/// The hash and the place of a listed cell. Keys are ordered by hash, and those of one hash by place.
#[derive(Clone, Copy, PartialEq, Eq, PartialOrd, Ord)]
pub struct PlacedHash {
    pub hash: Hash256,
    /// The place in the list of cells.
    pub place: u32,
}
