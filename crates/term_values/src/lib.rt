//! What the text of a term stands for: the first thing that is wrong with it, and its normal form.
//!
//! Promises: a text stands for its normal form, or its first fault is answered.
//!
//! Rules: `specs/TermValues`, `specs/Checks`, `specs/TermFaults`.
#![tactic(auto)]

mod checks;
pub mod faults;
pub mod literals;
pub mod names;
pub mod reader;
pub mod sums;
mod tests;
mod trees;
