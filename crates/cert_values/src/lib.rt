//! JSON values whose texts are borrowed, and which of them have the form of a certificate.
//!
//! Promises: a value's texts, items and members; whether a value has the form of a node or of a certificate, and whether it
//! has too many nodes or conditions.
//!
//! Rules: `specs/View`, `specs/Shape`, `specs/JsonTexts`.
//!
//! Words:
//! - format (of a certificate): 1, 2 or 4, the value of `format`; where ports are named it is not 1, and where two nodes stand
//!   at the same points it is 4
#![tactic(auto)]

pub mod shape;
pub mod value;
