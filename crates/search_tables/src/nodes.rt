//! Nodes of a table.

use cert_model::fact::Fact;
use fs_cut::cover::Point;

/// A node of a table: a pair of points, and a fact on the two stores there.
#[derive(Drop)]
pub struct SearchNode {
    pub left: Point,
    pub right: Point,
    pub fact: Fact,
}
