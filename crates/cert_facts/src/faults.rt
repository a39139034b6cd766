//! Why the bytes of a certificate are refused.

ghost use Rattle.std.specs.Prelude.{◌≡◌};
ghost use Rattle.cert_facts.specs.declared.faults.Stop.TheVariants as stops;

use nf_terms::stop::NoMemory;
use std::alloc::{AllocError, AllocFailed};

/// Why the bytes of a certificate are refused. Nodes are numbered from 0.
#[derive(Clone, Copy)]
pub enum CertError {
    /// The bytes are not text, or not JSON.
    NotJson,
    /// The value does not have the form of a certificate.
    Shape,
    /// A point of the node is no state, and neither `start` nor `done`.
    UnknownState { node: u32 },
    /// A point of the node is the reset state by its name, or a state with one branch.
    NotCutpoint { node: u32 },
    /// A key or a name in a text of the node stands for no position.
    UnknownName { node: u32 },
    /// A name in a text of the node stands for a position of another sort than the one that is needed.
    SortOf { node: u32 },
    /// A position that has an equation is mentioned in a term or in a condition of the node.
    NotSolved { node: u32, place: u32 },
    /// An earlier node has the same points.
    TwiceNode { node: u32 },
    /// A number in a text of the node is above 2^127 - 1.
    NumberTooBig { node: u32 },
    /// There are more than 4,096 nodes, or more than 64 conditions in a node.
    TooMany,
    /// There is no memory.
    NoMemory,
    /// A text of the node is no term or condition, or more than 64 brackets are open at once.
    BadTerm { node: u32 },
    /// A term or condition of the node is not in normal form, writes a 1 before an atom, or is past a limit.
    NotNormal { node: u32 },
}

/// A refusal, or out of memory.
#[derive(Clone, Copy)]
pub enum Stop {
    Refused(CertError),
    NoMemory,
}

impl From<NoMemory> for Stop {
    ghost from_gives = { λ _ e. e ≡ stops.NoMemory };

    fn from(_refused: NoMemory) -> Stop {
        Stop::NoMemory
    }
}

impl From<AllocError> for Stop {
    ghost from_gives = { λ _ e. e ≡ stops.NoMemory };

    fn from(_refused: AllocError) -> Stop {
        Stop::NoMemory
    }
}

impl<T: Drop> From<AllocFailed<T>> for Stop {
    ghost from_gives = { λ _ e. e ≡ stops.NoMemory };

    fn from(_refused: AllocFailed<T>) -> Stop {
        Stop::NoMemory
    }
}
