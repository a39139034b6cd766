//! The method of nodes: a table of nodes, whose facts lead from node to node, shows that two machines
//! have the same behaviour. What facts are is left open. Alike machines, which differ only in the names of their states and
//! in how basic blocks are cut into states, and of whose reset states both test or neither does, have the same behaviour.
//!
//! Promises: machines for which a table of nodes leads on have the same behaviour, whatever facts are; so have alike
//! machines; whether ranks fall along moves.
//!
//! Rules: `specs/Tables`, `specs/Ranks`, `src/laws`, `specs/Alike`, `src/alike_laws`.
//!
//! Words:
//! - mode: which machines move from a node
//! - node (of a table): a pair of points with a fact, a mode and a rank
//! - rank (of a node): a bound on the moves of one machine alone
//! - table (of nodes): nodes whose facts lead from node to node
#![tactic(auto)]

pub mod alike_laws;
pub mod laws;
pub mod mode;
pub mod ranks;
