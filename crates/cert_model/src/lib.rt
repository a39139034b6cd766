//! Certificates of the same behaviour as data, what each owes, the law that they show it, and what their types promise: facts
//! whose equations and literals are in normal form. Two machines side by side, as the search and the checker take them.
//!
//! Promises: what a certificate owes, by number; where all holds, the machines have the same behaviour; the facts of
//! each certificate are in normal form; the paths of points by covers, keys of pairs of points, whether outputs have the
//! same forms, and whether nodes make a lawful certificate.
//!
//! Rules: `specs/Obligations`, `specs/Lawful`, `src/laws`, `specs/Kept`, `specs/PointKeys`.
//!
//! Words:
//! - certificate: nodes at pairs of points that show the same behaviour
//! - lawful (of a certificate): at most 4,096 nodes at points of the machines, with ranks of at most 4,096 and facts of the
//!   pairing
//! - obligation: what a certificate owes, by number
//! - verdict: what a checker says of a certificate
#![tactic(auto)]

pub mod cert;
pub mod covers;
pub mod kept;
pub mod keys;
pub mod lawful_nodes;
pub mod laws;
pub mod outputs;
pub mod reason;

pub use sym_facts::fact;
