use thiserror::Error;

/// Why a bag has no Merkle update.
#[derive(Clone, Copy, Debug, PartialEq, Eq, Error)]
pub enum UpdateFault {
    /// It hasn't one root, or the root isn't a Merkle update.
    #[error("the bag isn't a Merkle update")]
    NotUpdate,
    /// The root has levels above 0: its mask isn't 0.
    #[error("the Merkle update has mask {mask}")]
    Level { mask: u8 },
}
