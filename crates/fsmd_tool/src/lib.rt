//! The call of `fsmd`: loads its files, answers from what they spell, stores and puts.
//!
//! Promises: `load`, `load_pair` and the other loads: what a file spells, or the answer that refuses it; `answer`: a correct
//! answer, and just the files that it follows from were loaded, in order; `drive`: all that is promised of a call; `run_words`
//! and `run_program`: the program as a whole.
//!
//! Rules: `specs/Equivalent`, `specs/Correct`, `specs/Clauses`, `specs/Running`, `specs/Asking`, `specs/CertificateStores`,
//! `specs/Calls`, `specs/Loading`, `specs/PairCommands`, `specs/HoldingLinks`.
//!
//! Words:
//! - correct answer: an answer that the words and the files call for
//! - outcome (of a call): a correct answer was put, or there was no memory
#![tactic(auto)]

pub mod answer;
pub mod load;
pub mod program;
pub mod put;
