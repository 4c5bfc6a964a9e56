//! Want of memory, the one answer that all crates have in common.
#![tactic(auto)]

use std::alloc::{AllocError, AllocFailed};

/// There was no memory for a call that takes some. It comes only from the allocator. (Source: own.)
#[derive(Clone, Copy, Debug, PartialEq, Eq)]
pub struct NoMemory;

impl From<AllocError> for NoMemory {
    fn from(_: AllocError) -> Self {
        NoMemory
    }
}

impl<T: Drop> From<AllocFailed<T>> for NoMemory {
    fn from(_: AllocFailed<T>) -> Self {
        NoMemory
    }
}
