//! Laws of certificates, those that hold and those of closed searches: what is written is read as the same certificate, as
//! the text of a JSON value is read as this value, and a verdict is that of the first obligation that decides.
//!
//! Promises: the text of a certificate that holds is small, and read as the same certificate; that of a closed search
//! holds.
//!
//! Rules: `src/laws`, `specs/Certificates`, `src/certificate_laws`, `src/json_laws`, `specs/Deciding`, `specs/Orderly`.
//!
//! Words:
//! - certificate that holds: a lawful certificate within the limits of which all obligations hold, whoever found it
#![tactic(auto)]

pub mod again;
pub mod certificate_laws;
pub mod json_laws;
pub mod laws;

pub use search::{run, searching};
