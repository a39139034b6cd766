//! Facts on the stores of two machines, substitution in forms and literals, and when a post entails a fact.
//!
//! Promises: facts; substitution; the start fact holds of all start stores; what a post entails holds where it leads; what
//! arrives is of the pairing.
//!
//! Rules: `specs/Facts`, `specs/Entailment`, `specs/Pairings`, `src/laws`.
//!
//! Words:
//! - entails: a post entails a fact where all of it holds where the post leads
//! - equation: the normal form that a fact gives a position
//! - fact: equations and literals on a pair of stores
//! - solved: no position with an equation is mentioned
#![tactic(auto)]

pub mod entailment;
pub mod fact;
pub mod laws;
mod mentioned;
mod parts;
mod position_set;
pub mod start;

pub use nf_symbols::{gathering, shared_form};
pub use sym_paths::evaluation;
