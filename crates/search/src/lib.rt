//! The search for a certificate that two machines have the same behaviour, by value propagation (Banerjee and others, IEEE TCAD
//! 2014).
//!
//! Promises: `search`: a lawful certificate whose obligations all hold, or an obstacle with its moves, at most
//! 1,314,816; of alike machines only a limit; `run`: the moves of a search, each the next one, and how they end.
//!
//! Rules: `specs/SearchOutcomes`.
//!
//! Words:
//! - closed search: a legal list of moves that makes a closed table in which no outputs differ, with the certificate of
//!   that table
#![tactic(auto)]

pub mod run;
pub mod searching;
