use std::alloc::{AllocError, AllocFailed};
use thiserror::Error;

/// An object of the outside, as a source, a sink or a keeper, failed: its count of faults rose in the call.
#[derive(Clone, Copy, Debug, PartialEq, Eq, Error)]
#[error("an object of the outside failed")]
pub struct Failed;

/// Memory ran out. The answer of a call that has no other refusal.
#[derive(Clone, Copy, Debug, PartialEq, Eq, Error)]
#[error("out of memory")]
pub struct Memory;

impl From<AllocError> for Memory {
    fn from(_error: AllocError) -> Memory {
        Memory
    }
}

impl<T: Drop> From<AllocFailed<T>> for Memory {
    fn from(_error: AllocFailed<T>) -> Memory {
        Memory
    }
}
