//! The text of terms: polynomials, arrays and lists as a certificate writes them.
//!
//! Promises: a polynomial, an array or a monomial at the beginning of bytes is read exactly, and what follows it is told.
//!
//! Rules: `specs/SpellableTerms`, `specs/TermTexts`.
//!
//! Words:
//! - term (of a certificate): a polynomial, an array or a list as it is written
#![tactic(auto)]

pub mod fault;
mod parts;
pub mod scan;
pub mod signs;
mod starts;
pub mod terms;
pub mod tree;
