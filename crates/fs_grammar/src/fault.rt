//! Why a text could not be read.

ghost use Rattle.std.specs.Prelude.{◌≡◌};
ghost use Rattle.fs_grammar.specs.declared.fault.ReadError.TheVariants as errors;

use fs_model::name::NoMemory;
use std::alloc::{AllocError, AllocFailed};
use thiserror::Error;

/// A place in a text; lines and columns count from 1.
#[derive(Clone, Copy)]
pub struct TextPlace {
    pub line: u32,
    pub column: u32,
}

/// What is wrong at a place of a text.
#[derive(Clone, Copy, Debug)]
pub enum TextKind {
    /// A byte that begins no token.
    BadByte,
    /// A word of more than 32 bytes.
    BadWord,
    /// A number above 2^127 - 1.
    NumberTooBig,
    /// A token that can follow in no text.
    Unexpected,
    /// The 129th operator or opening bracket of one guard or one assignment.
    Operators,
    /// A block within 64 others; of the language of programs alone.
    Nested,
    /// The bytes end where a text cannot.
    Ended,
}

/// The first fault of a text; its line and column count from 1.
#[derive(Clone, Copy, Debug)]
pub struct TextFault {
    pub line: u32,
    pub column: u32,
    pub kind: TextKind,
}

/// Why a text could not be read.
#[derive(Debug, Drop, Error)]
pub enum ReadError {
    /// The bytes spell no machine.
    #[error("the text is faulty at line {}, column {}", .0.line, .0.column)]
    Text(TextFault),
    /// Out of memory.
    #[error("out of memory")]
    NoMemory,
}

impl From<AllocError> for ReadError {
    ghost from_gives = { λ _ e. e ≡ errors.NoMemory };

    fn from(_e: AllocError) -> ReadError {
        ReadError::NoMemory
    }
}

impl<T: Drop> From<AllocFailed<T>> for ReadError {
    ghost from_gives = { λ _ e. e ≡ errors.NoMemory };

    fn from(_e: AllocFailed<T>) -> ReadError {
        ReadError::NoMemory
    }
}

impl From<NoMemory> for ReadError {
    ghost from_gives = { λ _ e. e ≡ errors.NoMemory };

    fn from(_e: NoMemory) -> ReadError {
        ReadError::NoMemory
    }
}
