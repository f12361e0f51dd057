use crate::scan_fault::ScanFault;
use thiserror::Error;

/// Why a store isn't opened.
#[derive(Clone, Copy, Debug, PartialEq, Eq, Error)]
pub enum OpenFault {
    /// What the keeper holds isn't a store, by this refusal of the scan.
    #[error("the store is damaged: {0}")]
    Damaged(ScanFault),
    /// The keeper failed.
    #[error("the keeper failed")]
    Keeper,
    /// Memory ran out.
    #[error("out of memory")]
    Memory,
}
