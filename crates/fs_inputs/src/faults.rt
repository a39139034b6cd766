//! Why a file of inputs is refused.

ghost use Rattle.std.specs.Prelude.{◌≡◌};
ghost use Rattle.fs_inputs.specs.declared.faults.InputError.TheVariants as errors;

use fs_stores::memory::NoMemory;
use std::alloc::AllocError;
use thiserror::Error;

/// What is wrong at a name of a file.
#[derive(Clone, Copy)]
pub enum Fault {
    /// The value does not have the form of a value of the input's sort.
    Shape,
    /// No input has the name.
    Unknown,
    /// A number of the value lies outside 128 bits.
    TooBig,
}

/// Why a file of inputs is refused.
#[derive(Debug, Drop, Error)]
pub enum InputError {
    /// The bytes are not text, or not JSON.
    #[error("the inputs are not JSON")]
    NotJson,
    /// The value of a name does not have the form that the input's sort asks for. No input has the empty
    /// name: it stands here where the file is no object.
    #[error("the value of `{name}` has a wrong form")]
    Shape { name: String },
    /// No input has the name.
    #[error("`{name}` is no input")]
    UnknownName { name: String },
    /// A number of the name's value lies outside 128 bits.
    #[error("a number of `{name}` is too big")]
    NumberTooBig { name: String },
    /// There is no memory.
    #[error("there is no memory")]
    NoMemory,
}

impl From<AllocError> for InputError {
    ghost from_gives = { λ _ e. e ≡ errors.NoMemory };

    fn from(_e: AllocError) -> InputError {
        InputError::NoMemory
    }
}

impl From<NoMemory> for InputError {
    ghost from_gives = { λ _ e. e ≡ errors.NoMemory };

    fn from(_e: NoMemory) -> InputError {
        InputError::NoMemory
    }
}
