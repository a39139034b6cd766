//! What tells arrivals at a pair of points apart: cases.
//!
//! Promises: calls are safe and end, and no more is promised.
//!
//! Rules: `src/cases`.
//!
//! Words:
//! - case: what is known at an arrival, by which it is told apart from others at the same pair of points
//! - flag: a local all of whose assignments are numbers or other flags
#![tactic(auto)]

pub mod cases;
mod flags;
pub mod kinds;
mod known;
pub mod told;
