//! Writing normal terms and literals as certificates do.
//!
//! Promises: a normal form is written as the grammar says; polynomials, arrays and lists mean themselves again and are
//! short.
//!
//! Rules: `specs/WrittenTerms`, `src/laws`.
#![tactic(auto)]

pub mod laws;
mod literals;
pub mod names;
mod numbers;
mod terms;
pub mod writer;
