//! The ranks of a graph, or a cycle of it.

/// What a graph has: ranks where it has no cycle, and a cycle otherwise.
#[derive(Drop)]
pub enum Ranking {
    /// For each node the length of the longest chain of edges from it.
    Ranks(Vec<u32>),
    /// Nodes that follow one another, the last leading to the first. The first is the least node that lies on any cycle.
    Cycle(Vec<u32>),
}
