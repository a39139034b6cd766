//! The text of certificates.
//!
//! The fact of a node is read by `cert_facts`, of which the faults are passed on.
//!
//! Promises: `read_cert`: the lawful certificate that bytes spell, or the first rule that is broken.
//!
//! Rules: `specs/NodePointNames`, `specs/CertificateReading`, `specs/FileErrors`, `specs/Refusals`.
//!
//! Words:
//! - cutpoint (in `NotCutpoint`): a state that is a point: it has more than one branch, and is not the reset state
#![tactic(auto)]

pub mod laws;
mod nodes;
mod points;
pub mod reader;

pub use cert_facts::faults;
