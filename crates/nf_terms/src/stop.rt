//! Why a call gives no normal form.

ghost use Rattle.std.specs.Prelude.{◌≡◌};
ghost use Rattle.nf_terms.specs.declared.stop.NfStop.TheVariants.{NoMemory as OutOfMemory};

pub use nf_trees::stop::NoMemory;
use std::alloc::{AllocError, AllocFailed};

/// Why an operation on normal forms gives none.
#[derive(Clone, Copy)]
pub enum NfStop {
    /// The operation's weight is past 2^127 - 1: the weights of its two sides.
    Wide { left: u128, right: u128 },
    /// The result's size is past 4,096 or its depth past 64: the raw size, and the depth where the size is within the limit, else
    /// 0.
    Large { units: u64, depth: u32 },
    /// Memory was refused.
    NoMemory,
}

impl From<AllocError> for NfStop {
    ghost from_gives = { λ _ stop. stop ≡ OutOfMemory };

    fn from(_refused: AllocError) -> NfStop {
        NfStop::NoMemory
    }
}

impl<T: Drop> From<AllocFailed<T>> for NfStop {
    ghost from_gives = { λ _ stop. stop ≡ OutOfMemory };

    fn from(_refused: AllocFailed<T>) -> NfStop {
        NfStop::NoMemory
    }
}

impl From<NoMemory> for NfStop {
    ghost from_gives = { λ _ stop. stop ≡ OutOfMemory };

    fn from(_refused: NoMemory) -> NfStop {
        NfStop::NoMemory
    }
}
