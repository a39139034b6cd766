//! The text of whole terms and of conditions, as a certificate writes them.
//!
//! Promises: the text of polynomials, arrays, lists and conditions is read exactly, at most 64 brackets open.
//!
//! Rules: `specs/ConditionParts`, `specs/ConditionTexts`.
//!
//! Words:
//! - condition (of a certificate): a literal as the text of a node has it
#![tactic(auto)]

pub mod brackets;
pub mod condition;
pub mod numbers;
mod parts;
pub mod reader;
pub mod sums;
pub mod whole_terms;
