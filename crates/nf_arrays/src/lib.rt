//! Reads, writes, quotients and remainders of normal forms.
//!
//! Promises: reads, writes, quotients, remainders and pushes, each as a function with its first event.
//!
//! Rules: `specs/Writes`, `specs/NewAtoms`, `specs/Pushes`.
#![tactic(auto)]

mod atoms;
mod copies;
pub mod division;
pub mod laws;
pub mod pushes;
pub mod reads;
pub mod writes;
