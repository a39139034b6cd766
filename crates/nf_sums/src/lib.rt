//! Sums and products of normal forms.
//!
//! Promises: sums, differences, products and negation, each as a function with its first event; an accumulator that
//! takes one monomial at a time; the laws of the order and of the parts of terms.
//!
//! Rules: `specs/RawSumForms`, `specs/Operations`, `specs/Sameness`, `specs/Accumulators`, `src/laws`.
//!
//! Words:
//! - settled (of a term): its arrays are tidied and its indices, values and operands in normal form
#![tactic(auto)]

pub mod accumulator;
pub mod copies;
mod join;
pub mod laws;
mod limits;
mod negation;
mod owned;
mod product;
pub mod sums;
