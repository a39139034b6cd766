//! Transitions over the numbers of names, their decision trees, and the branches of these.
//!
//! Promises: a state over numbers is the one that the text spells; branches are the leaves of the decision tree, yes before no.
//!
//! Rules: `specs/NumberedParts`, `specs/Forks`.
#![tactic(auto)]

pub mod resolve;
pub mod shared_literal;
pub mod trees;
