//! Moves of a search.

/// One path of each side that moves, from a node of the table: the numbers of their branches.
#[derive(Clone, Copy)]
pub struct Move {
    pub node: u32,
    pub left: Option<u32>,
    pub right: Option<u32>,
}
