//! Linear equations between numbers that hold in some vectors.
//!
//! Promises: `add_equations`: calls are safe and end, and no more is promised.
//!
//! Words:
//! - column: a number, as its coefficients in each vector
#![tactic(auto)]

mod candidates;
mod elimination;
pub mod equations;
mod residues;
mod rows;
