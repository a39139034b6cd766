//! Certificates of two machines, shown: their nodes, and what their obligations ask.
//!
//! Promises: `certificate_lines`: the nodes of a certificate as lines; `obligation_lines`: its obligations, by number.
//!
//! Rules: `specs/CertificateLines`, `specs/Demands`, `specs/Cases`, `specs/MoveCases`.
//!
//! Words:
//! - case: one of several nodes of a certificate that stand at the same points
#![tactic(auto)]

mod cases;
mod demands;
mod modes;
mod move_cases;
mod move_demands;
pub mod nodes;
pub mod obligations;
mod telling;
