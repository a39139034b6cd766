//! Writing certificates as the text of their JSON.
//!
//! Promises: `write_cert`: the text of a lawful certificate, exactly, and at most how long it is.
//!
//! Rules: `specs/WrittenCertificates`, `specs/CertificateLimits`.
#![tactic(auto)]

mod conditions;
mod equations;
mod names;
mod nodes;
mod points;
mod texts;
pub mod writer;
mod written;
