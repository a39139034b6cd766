//! What is next in a search, and the table after it, by the items that wait.
//!
//! Promises: `next`: the move that is next, with the change that it makes, an obstacle, or nothing; `make`: the table after a
//! change.
//!
//! Rules: `specs/Waiting`, `specs/Turns`, `specs/SearchEnds`.
#![tactic(auto)]

pub mod ends;
mod node_ways;
pub mod outputs;
pub mod sides;
pub mod state;
pub mod trial;
mod trials;
pub mod turns;

pub use search_places::nodes;
