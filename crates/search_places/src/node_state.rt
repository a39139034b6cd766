//! What is kept of a node.

use search_tables::moves::Move;
use search_waiting::item::Item;
use sym_facts::fact::Fact;

/// The fact of a node, the moves of its mode once that is found, and the items that arrive at it.
#[derive(Drop)]
pub struct NodeState {
    pub fact: Fact,
    pub moves: Option<Vec<Move>>,
    pub arrivals: Vec<Item>,
}
