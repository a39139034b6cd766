//! Memory, which may be refused.

use std::alloc::AllocFailed;

/// Out of memory.
#[derive(Clone, Copy)]
pub struct NoMemory;

impl<T: Drop> From<AllocFailed<T>> for NoMemory {
    fn from(_refused: AllocFailed<T>) -> NoMemory {
        NoMemory
    }
}
