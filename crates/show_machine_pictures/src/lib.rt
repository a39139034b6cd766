//! The picture of a machine: a graph of its states, with an edge for each branch; and texts of DOT, the language of
//! Graphviz: the nodes and edges of a graph, and texts in quotes.
//!
//! Promises: `picture_of`: the picture of a machine, exactly; `write_node`, `write_edge`, `graph_text`: lines of DOT, whose
//! texts in quotes read back.
//!
//! Rules: `specs/Pictures`, `specs/Quotes`, `specs/DotLines`, `src/quote_laws`.
#![tactic(auto)]

mod branches;
mod expressions;
pub mod graphs;
pub mod pictures;
pub mod quote_laws;
mod quotes;
