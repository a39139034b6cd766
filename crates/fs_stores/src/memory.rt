//! Memory, which may be refused.

use std::alloc::{AllocError, AllocFailed};

/// Out of memory.
#[derive(Clone, Copy)]
pub struct NoMemory;

impl From<AllocError> for NoMemory {
    fn from(_refused: AllocError) -> NoMemory {
        NoMemory
    }
}

impl<T: Drop> From<AllocFailed<T>> for NoMemory {
    fn from(_refused: AllocFailed<T>) -> NoMemory {
        NoMemory
    }
}

impl From<fs_model::name::NoMemory> for NoMemory {
    fn from(_refused: fs_model::name::NoMemory) -> NoMemory {
        NoMemory
    }
}
