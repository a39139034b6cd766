//! The table of a search for a certificate: what a move does to it, what is next, legal lists of moves, the certificate of a
//! closed table, and obstacles. Ranks of the nodes of a graph.
//!
//! Promises: what is next in a table, legal lists, obstacles; a closed table's certificate meets all obligations;
//! `rank_all`: the lengths of the longest chains of a graph, or the cycle of it that begins at the least node on any.
//!
//! Rules: `specs/SearchTables`, `specs/Next`, `specs/Legal`, `specs/Obstacles`, `src/laws`, `specs/Graphs`,
//! `src/rank_laws`.
//!
//! Words:
//! - budget: the most nodes and units of a table
//! - chain (of a graph): nodes along its edges; the longest from a node gives its rank
//! - closed (of a table): nothing is next
//! - effect (of a move): what it does to a table
//! - legal list: moves of which each is next and changes the table
//! - lone move: a move by which one machine moves alone, to a node from which the same machine moves alone: a stuttering
//!   step of the other machine
//! - move (of a search): one path of each side that moves, from a node
//! - next: the first event, excess or change, looking from the first node
//! - obstacle: why a legal list of moves ends without a certificate
//! - outcome (of a search): a certificate, or an obstacle with the moves that lead to it
//! - table (of a search): its nodes, at most one at a pair of points
//! - well formed (of a table): at most 4,096 nodes, each at two points, no two at the same
#![tactic(auto)]

pub mod laws;
pub(crate) mod least;
pub(crate) mod marks;
pub mod memory;
pub mod moves;
pub mod nodes;
pub mod outcome;
pub mod pairs;
pub mod rank_laws;
pub mod ranking;
pub mod walk;

pub use cert_model::keys;
pub use propagate::modes;
