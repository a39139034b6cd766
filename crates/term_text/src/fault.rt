//! Why a term could not be read.

ghost use Rattle.std.specs.Prelude.{◌≡◌};
ghost use Rattle.term_text.specs.declared.fault.ReadError.TheVariants as errors;

use nf_terms::stop::NoMemory;
use std::alloc::{AllocError, AllocFailed};

/// Why a term could not be read.
#[derive(Clone, Copy)]
pub enum ReadError {
    /// The bytes spell no term of the sort that is wanted.
    BadTerm,
    /// There is no memory.
    NoMemory,
}

impl From<AllocError> for ReadError {
    ghost from_gives = { λ _ e. e ≡ errors.NoMemory };

    fn from(_e: AllocError) -> ReadError {
        ReadError::NoMemory
    }
}

impl From<NoMemory> for ReadError {
    ghost from_gives = { λ _ e. e ≡ errors.NoMemory };

    fn from(_e: NoMemory) -> ReadError {
        ReadError::NoMemory
    }
}

impl<T: Drop> From<AllocFailed<T>> for ReadError {
    ghost from_gives = { λ _ e. e ≡ errors.NoMemory };

    fn from(_e: AllocFailed<T>) -> ReadError {
        ReadError::NoMemory
    }
}
