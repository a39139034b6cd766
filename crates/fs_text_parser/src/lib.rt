//! The parts of machine texts, from their tokens: the head, the declarations, and the transitions of a state.
//!
//! Promises: `header`, `declarations`, `reset`, `transitions`: what tokens spell, or their first fault.
//!
//! Rules: `specs/Destinations`, `specs/DeclarationStarts`.
#![tactic(auto)]

pub mod declarations;
mod expressions;
mod parts;
pub mod transitions;
pub mod words;
