//! The node at two points.

ghost use Rattle.std.specs.Prelude.{◌≡◌};
ghost use Rattle.fs_cut.specs.View.{point_of};
ghost use Rattle.search_tables.specs.SearchTables.{is_at, node_target};
ghost use Rattle.search_tables.specs.View.{search_node_in, table_in};
ghost use Rattle.show_move_lines.specs.View.{target_in};

use fs_cut::cover::Point;
use search_tables::nodes::SearchNode;

/// A node with its number.
#[derive(Clone, Copy)]
pub struct NumberedNode<'a> {
    pub number: usize,
    pub node: &'a SearchNode,
}

// Whether a node stands at two points.
fn is_at(left: Point, right: Point, node: &SearchNode) -> bool
    ensures { result ≡ is_at (point_of left) (point_of right) (search_node_in node.now) }
{
    node.left.is_same(left) && node.right.is_same(right)
}

/// The first node at two points.
pub fn find(nodes: &[SearchNode], left: Point, right: Point) -> Option<NumberedNode<'_>>
    ensures { target_in result ≡ node_target (table_in nodes.now) (point_of left) (point_of right) }
{
    for (number, node) in nodes.iter().enumerate() {
        if is_at(left, right, node) {
            return Some(NumberedNode { number, node });
        }
    }
    None
}
