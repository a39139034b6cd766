//! What the variables of a machine hold: the inputs, the store in which a run begins, and what a step reads and changes.
//!
//! Promises: values, the branch that a store takes and the changes of its assignments are those of the model.
//!
//! Rules: `specs/Values`, `specs/InputValues`, `specs/Reads`, `specs/Changes`.
//!
//! Words:
//! - listing (of an array): its entries that are not 0, by rising index
#![tactic(auto)]

mod arithmetic;
pub mod branches;
pub mod changes;
mod eval;
pub mod inputs;
pub mod memory;
pub mod numbers;
pub mod store;
pub mod values;
