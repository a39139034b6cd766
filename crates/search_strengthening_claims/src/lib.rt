//! What has held at every arrival at a pair of points, and facts that are made of parts of which nothing is known before.
//!
//! Promises: `claims_before`, `weed`: calls are safe and end, and no more is promised; `tested_fact`: a fact of the
//! pairing, or none.
//!
//! Rules: `src/tested_facts`.
//!
//! Words:
//! - claims: which terms have been equal, and which literals true, at every arrival at a pair of points
//! - weed: to take from claims what does not hold at an arrival
#![tactic(auto)]

pub mod claims;
pub mod tested_facts;
pub mod visited;
pub mod weeding;

pub use search_strengthening_terms::{live, loops, order, stop, universe, work};
