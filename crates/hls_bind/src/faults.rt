//! Why a file of a binding is refused.

ghost use Rattle.std.specs.Prelude.{◌≡◌};
ghost use Rattle.hls_bind.specs.declared.faults.BindError.TheVariants as errors;

use fs_model::name::NoMemory;
use std::alloc::AllocError;

/// What is wrong at a name of a file.
#[derive(Clone, Copy)]
pub enum Fault {
    /// No scalar local has the name.
    Unknown,
    /// The value is no string.
    Shape,
    /// The string is no name.
    BadName,
    /// A variable of the machine has the string as its name.
    Taken,
}

/// Why a file of a binding is refused.
#[derive(Drop)]
pub enum BindError {
    /// The bytes are not text, or not JSON.
    NotJson,
    /// The value of a name is no string. No local has the empty name: it stands here where the file is no object.
    Shape { name: String },
    /// No scalar local has the name.
    UnknownName { name: String },
    /// The value of a name is a string that is no name of a machine text, or longer than 32 bytes.
    BadName { name: String },
    /// The value of a name is the name of a variable of the machine.
    Taken { name: String },
    /// There is no memory.
    NoMemory,
}

impl From<AllocError> for BindError {
    ghost from_gives = { λ _ e. e ≡ errors.NoMemory };

    fn from(_e: AllocError) -> BindError {
        BindError::NoMemory
    }
}

impl From<NoMemory> for BindError {
    ghost from_gives = { λ _ e. e ≡ errors.NoMemory };

    fn from(_e: NoMemory) -> BindError {
        BindError::NoMemory
    }
}
