//! Memory, which may be refused.

/// Out of memory.
#[derive(Clone, Copy)]
pub struct NoMemory;

impl From<fs_stores::memory::NoMemory> for NoMemory {
    fn from(_refused: fs_stores::memory::NoMemory) -> NoMemory {
        NoMemory
    }
}
