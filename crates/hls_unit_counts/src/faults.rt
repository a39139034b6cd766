//! Why a file of unit counts is refused.

ghost use Rattle.std.specs.Prelude.{◌≡◌};
ghost use Rattle.hls_unit_counts.specs.declared.faults.UnitError.TheVariants as errors;

use std::alloc::AllocError;
use thiserror::Error;

/// What is wrong at a key of a file.
#[derive(Clone, Copy)]
pub enum Fault {
    /// The value is no whole number from 0 to 1,000,000.
    Shape,
    /// The key is no kind of unit.
    Unknown,
}

/// Why a file of unit counts is refused.
#[derive(Debug, Drop, Error)]
pub enum UnitError {
    /// The bytes are not text, or not JSON.
    #[error("the unit counts are not JSON")]
    NotJson,
    /// The value of a key is no whole number from 0 to 1,000,000. No kind has the empty name: it stands here
    /// where the file is no object.
    #[error("the value of `{name}` has a wrong form")]
    Shape { name: String },
    /// The key is no kind of unit.
    #[error("`{name}` is no kind of unit")]
    UnknownName { name: String },
    /// There is no memory.
    #[error("there is no memory")]
    NoMemory,
}

impl From<AllocError> for UnitError {
    ghost from_gives = { λ _ e. e ≡ errors.NoMemory };

    fn from(_e: AllocError) -> UnitError {
        UnitError::NoMemory
    }
}
