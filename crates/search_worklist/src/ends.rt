//! How the moves of a search end.

use search_tables::moves::Move;
use search_tables::nodes::SearchNode;
use search_tables::outcome::Obstacle;

/// The table that moves made, in order, and the obstacle that ends them; none where no move makes a difference any more.
#[derive(Drop)]
pub struct Ended {
    pub nodes: Vec<SearchNode>,
    pub moves: Vec<Move>,
    pub obstacle: Option<Obstacle>,
}
