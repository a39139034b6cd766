//! Which machines move at a node, and the facts that a path carries on.
//!
//! Promises: the mode of a node, exactly, with the path of the first event; `rebase` and `join`, exactly; joined facts
//! hold where the old fact holds and where the post leads, are solved and say less; rebased facts hold where the post
//! leads, are solved and of the positions.
//!
//! Rules: `specs/Modes`, `specs/Joins`, `specs/Rebases`, `src/laws`.
//!
//! Words:
//! - join: a fact without what a post does not entail
//! - rebase: the fact of a post at a new node
#![tactic(auto)]

pub mod joins;
pub mod laws;
pub mod modes;
pub mod rebases;

pub use nf_substitution::subst;
