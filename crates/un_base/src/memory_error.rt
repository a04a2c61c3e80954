//! Want of memory.

use std::alloc::AllocError;

/// There was no memory for what a call needed.
#[derive(Clone, Copy, Debug, PartialEq)]
pub struct NoMemory;

impl From<AllocError> for NoMemory {
    fn from(_error: AllocError) -> NoMemory {
        NoMemory
    }
}
