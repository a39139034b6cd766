//! Why a search is broken off.

use nf_terms::stop::{NfStop, NoMemory};
use std::alloc::{AllocError, AllocFailed};

/// Why a search is broken off.
#[derive(Clone, Copy)]
pub enum Stop {
    /// It can't go on in this way: a bound is reached that is no bound of its work, or what is needed can't be made.
    Bound,
    /// Its work is used up.
    Exhausted,
    /// Memory was refused.
    NoMemory,
}

impl From<NoMemory> for Stop {
    fn from(_refused: NoMemory) -> Stop {
        Stop::NoMemory
    }
}

impl From<AllocError> for Stop {
    fn from(_refused: AllocError) -> Stop {
        Stop::NoMemory
    }
}

impl<T: Drop> From<AllocFailed<T>> for Stop {
    fn from(_refused: AllocFailed<T>) -> Stop {
        Stop::NoMemory
    }
}

/// What an operation on normal forms gives, or none where it is not narrow, or not small. The one refusal is out of memory.
pub fn unless_stopped<T: Drop>(outcome: Result<T, NfStop>) -> Result<Option<T>, NoMemory> {
    match outcome {
        Ok(value) => Ok(Some(value)),
        Err(NfStop::NoMemory) => Err(NoMemory),
        Err(NfStop::Wide { .. } | NfStop::Large { .. }) => Ok(None),
    }
}

/// Leaves out what an operation on normal forms was to give: it is not narrow, or not small. The one refusal is out of memory.
pub(crate) fn leave_out(stop: NfStop) -> Result<(), NoMemory> {
    match stop {
        NfStop::NoMemory => Err(NoMemory),
        NfStop::Wide { .. } | NfStop::Large { .. } => Ok(()),
    }
}

/// What an operation on normal forms gives. `Bound` comes where it is not narrow, or not small.
pub fn within_limits<T: Drop>(outcome: Result<T, NfStop>) -> Result<T, Stop> {
    match outcome {
        Ok(value) => Ok(value),
        Err(NfStop::NoMemory) => Err(Stop::NoMemory),
        Err(NfStop::Wide { .. } | NfStop::Large { .. }) => Err(Stop::Bound),
    }
}
