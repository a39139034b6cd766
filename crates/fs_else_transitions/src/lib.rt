//! Which transition of a state has no guard: the last, and no other.
//!
//! Promises: whether the last transition of a state has a guard, or there is none.
//!
//! Rules: `specs/ElseTransitions`.
#![tactic(auto)]

pub mod else_transitions;
