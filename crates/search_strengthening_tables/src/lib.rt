//! The table of a second search, and the certificate that a closed one makes.
//!
//! Promises: `assemble`: a lawful certificate of at most 4,000,000 units, or none.
//!
//! Rules: `src/assembling`.
#![tactic(auto)]

pub mod assembling;
pub mod exchange;
pub mod flags;
pub mod nodes;
pub mod ranks;
pub mod rules;
pub mod sides;
pub mod state;

pub use search_strengthening_cases::{cases, kinds, told};
