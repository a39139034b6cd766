//! What two machines with the same inputs and outputs get: a certificate that they have the same behaviour, a counterexample, or
//! what keeps them undecided; and what a certificate of them gets.
//!
//! Promises: `compare_machines`: what two machines get, with the lines that are put; `judge`: what is answered of their
//! certificate.
//!
//! Rules: `specs/PairAnswers`, `specs/Verdicts`, `src/laws`.
//!
//! Words:
//! - counterexample: the first candidate that shows a difference, with both ends
//! - left open: of a search: a legal list of moves stops where outputs differ, or where one machine moves alone in a
//!   cycle; else it closes, or a limit stops it
#![tactic(auto)]

pub mod answer;
mod beyond;
mod candidates;
pub mod compare;
pub mod judge;
pub mod laws;

pub use search_laws::{run, searching};
