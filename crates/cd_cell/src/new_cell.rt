use crate::Face;
use cd_base::Hash256;

/// A cell under its representation hash. What lists such cells keeps that the hash is that of the face, by
/// the hash function that it is of.
#[derive(Clone, Copy, Debug, PartialEq, Eq)]
pub struct NewCell {
    /// The hash of the face at level 3.
    pub hash: Hash256,
    pub face: Face,
}
