//! Smaller inputs that still show a difference of two machines, and chains of machines with the same behaviour.
//!
//! One entry of the inputs at a time is made 0, or halved toward zero, as long as the outputs still differ. A chain grows by a
//! machine and a certificate of it and of the last one, and keeps its first machine and its last one alone.
//!
//! Promises: `shrink`: inputs that show a difference, made small to the end of the chain of first reductions; `Chain`:
//! the first and the last of machines with the same behaviour, which grows by a certificate.
//!
//! Rules: `specs/InputEntries`, `specs/Reductions`, `specs/Shrunk`, `specs/Given`, `specs/Chains`, `specs/ChainStops`,
//! `src/laws`.
//!
//! Words:
//! - chain (of machines): machines of which each has the behaviour of the one before it, by a certificate; the first
//!   and the last one are kept
//! - entry (of inputs): a number that is not 0, with its input and its index
//! - least (of inputs): no reduction shows a difference
//! - reduction: inputs in which one entry is made 0 or half of it
#![tactic(auto)]

mod chain;
pub mod entries;
pub mod laws;
mod reductions;
mod shrinking;

pub use chain::{Chain, ChainStop};
pub use shrinking::{Small, shrink};
