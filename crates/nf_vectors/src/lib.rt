//! Vectors of normal forms, which are shared.
//!
//! Promises: forms by position and sort, each put and found exactly; a copy shares them; the symbol that a number is.
//!
//! Rules: `specs/Vectors`, `specs/BareNumbers`, `src/laws`.
//!
//! Words:
//! - vector: a normal form for each position
#![tactic(auto)]

pub mod bare_numbers;
mod copies;
pub mod laws;
mod place;
pub mod shared_form;
pub mod vector;
