//! Normal forms of terms: which trees are normal, polynomials, arrays and lists that are, and their order and measures.
//!
//! The trees stand in `nf_trees`, which is passed on.
//!
//! Promises: terms of three sorts, their order and measures; normal by type; what an operation computes.
//!
//! Rules: `specs/Normal`, `specs/Lists`, `specs/Forms`, `specs/Computed`.
//!
//! Words:
//! - computed: what an operation on terms gives: a term, or the event
//! - event: the first operation of a computation past a limit: wide or large
//! - meaning (of a normal form): its value for a value of each symbol
//! - narrow, small: within the limit of weight; within the limits of size and depth
//! - normal form: a polynomial, an array or a list in the one form of its kind
//! - raw sum: a polynomial in any order, with repeats
//! - term (in normal form): a polynomial, an array or a list over symbols
#![tactic(auto)]

pub mod arr;
pub mod constants;
pub mod form;
pub mod limits;
pub mod narrow;
pub mod normal;
pub mod ordered;
pub mod poly;
pub mod seq;
pub mod stop;
pub mod symbols;
pub mod tree;

pub use nf_trees::{atoms, clones, copies, measures, mentions, order};
