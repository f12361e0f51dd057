use std::alloc::{AllocError, AllocFailed};
use thiserror::Error;

/// Why a bag could not be written.
#[derive(Clone, Copy, Debug, PartialEq, Eq, Error)]
pub enum WriteFault {
    /// Memory ran out.
    #[error("out of memory")]
    Memory,
}

impl From<AllocError> for WriteFault {
    fn from(_error: AllocError) -> WriteFault {
        WriteFault::Memory
    }
}

impl<T: Drop> From<AllocFailed<T>> for WriteFault {
    fn from(_error: AllocFailed<T>) -> WriteFault {
        WriteFault::Memory
    }
}
