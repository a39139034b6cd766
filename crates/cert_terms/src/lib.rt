//! The terms and the conditions of a certificate, and the names of two machines in them.
//!
//! Promises: tables of the names of states and of positions; what a text of a term or of a condition stands for.
//!
//! Rules: `specs/CertificateNames`, `specs/TextMeanings`, `specs/TextFunctions`, `specs/Within`, `specs/Repeats`.
#![tactic(auto)]

pub mod forms;
pub mod name_places;
pub mod names;
pub mod repeats;
pub mod table;
