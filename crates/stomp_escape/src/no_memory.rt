//! Out of memory.

use std::alloc::{AllocError, AllocFailed};
use thiserror::Error;

/// There was no memory for the result. Nothing else went wrong, so the call may be tried again.
#[derive(Clone, Copy, Debug, PartialEq, Eq, Error)]
#[error("NoMemory: try again where more memory is free, or send less")]
pub struct NoMemory;

impl From<AllocError> for NoMemory {
    /// An allocation was refused.
    fn from(_e: AllocError) -> NoMemory {
        NoMemory
    }
}

impl<T: Drop> From<AllocFailed<T>> for NoMemory {
    /// An allocation for a value was refused; the value is dropped.
    fn from(_e: AllocFailed<T>) -> NoMemory {
        NoMemory
    }
}
