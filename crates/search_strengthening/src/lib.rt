//! A second and a third search for a certificate that two machines have the same behaviour, for pairs that the first one leaves
//! undecided.
//!
//! Promises: `strengthen`, `strengthen_by_cases`: a lawful certificate of at most 4,000,000 units, or none.
//!
//! Rules: `src/strengthening`.
#![tactic(auto)]

pub mod by_cases;
mod modes;
mod moves;
mod searching;
mod steps;
pub mod strengthening;
mod ways;
