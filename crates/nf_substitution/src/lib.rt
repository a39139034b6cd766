//! Substitution of a vector in normal forms: each symbol becomes the vector's form for it. What vectors are stands in
//! `nf_vectors`, and is passed on.
//!
//! Promises: substitution that keeps each atom once.
//!
//! Rules: `specs/Substitution`, `specs/Keeping`, `specs/StayingTerms`, `src/laws`.
#![tactic(auto)]

mod evaluation;
mod kept_atoms;
mod kept_terms;
pub mod laws;
mod memo;
mod shared_number;
mod staying;
pub mod subst;

pub use nf_vectors::{bare_numbers, shared_form, vector};
