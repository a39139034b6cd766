//! The interfaces of two machines, and their variables in one order.
//!
//! Promises: equal interfaces or the first name that differs; positions; outputs meet where positions agree.
//!
//! Rules: `specs/Interfaces`, `specs/Positions`, `specs/PairedOutputs`, `src/laws`.
//!
//! Words:
//! - interface: the inputs and outputs of a machine, by name, role and sort
//! - pairing: the variables of two machines with equal interfaces, in one order
//! - position: a variable of one of two machines, by side and number
#![tactic(auto)]

pub mod interfaces;
pub mod laws;
pub mod memory;
pub mod positions;
mod sided_variables;
