//! Values of positions, over those that are free, that make terms equal which claims hold equal.
//!
//! Promises: `settle`, `equate`: calls are safe and end, and no more is promised.
//!
//! Words:
//! - settle: to give the positions of each class one value
//! - equate: to give the terms of each class one value
#![tactic(auto)]

mod constants;
pub mod equating;
pub mod settling;
pub mod solution;
mod solving;

pub use search_strengthening_claims::{claims, tested_facts, weeding};
