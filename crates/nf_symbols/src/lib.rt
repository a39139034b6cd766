//! The symbols of terms, and which symbols the results of operations on terms have.
//!
//! Promises: the symbols that a term has; what operations and substitutions give has no other symbols than what they are
//! made of; symbols decide the meaning.
//!
//! Rules: `specs/SymbolTests`, `src/laws`; `specs/Symbols` of `nf_terms`.
#![tactic(auto)]

pub mod gathering;
pub mod laws;

pub use nf_substitution::{shared_form, subst, vector};
