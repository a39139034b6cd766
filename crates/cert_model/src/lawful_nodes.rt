//! Whether nodes make a lawful certificate.

ghost use Rattle.std.specs.Prelude.{◌≡◌, ◌≤◌, ◌&&◌, map, nat_le, IsTrue};
ghost use Rattle.std.specs.List.{list_all, list_any};
ghost use Rattle.fs_cut.specs.Paths.{is_point};
ghost use Rattle.fs_cut.specs.Covers.{same_point as same};
ghost use Rattle.fs_cut.specs.View.{point_of};
ghost use Rattle.cert_model.specs.Lawful.{most_rank, points_differ};
ghost use Rattle.cert_model.specs.View.{node_of};
ghost use Rattle.cert_model.specs.Sizes.{units_of};

use crate::cert::Node;
use fs_ast::machine::Machine;
use fs_cut::points::is_point;

const RANK_LIMIT: u32 = 4096;

// The most units of the facts of a certificate.
const UNIT_LIMIT: u64 = 4_000_000;

/// Whether the points of nodes are points of the machines.
pub fn have_points(a: &Machine, b: &Machine, nodes: &[Node]) -> bool
    ensures { result ≡ list_all (λ n. is_point a.now n.left && is_point b.now n.right) (map node_of nodes.now) }
{
    for node in nodes {
        if !(is_point(a, node.left) && is_point(b, node.right)) {
            return false;
        }
    }
    true
}

// Whether one of the nodes stands at the points of a node.
fn stands_among(node: &Node, others: &[Node]) -> bool
    ensures { result ≡ list_any (λ k. same (point_of node.now.left) k.left && same (point_of node.now.right) k.right)
        (map node_of others.now) }
{
    for other in others {
        if node.left.is_same(other.left) && node.right.is_same(other.right) {
            return true;
        }
    }
    false
}

/// Whether no two nodes stand at the same points.
pub fn points_differ(nodes: &[Node]) -> bool
    ensures { result ≡ points_differ (map node_of nodes.now) }
{
    let mut rest = nodes;
    'nodes: while let Some((node, others)) = rest.split_first() {
        if stands_among(node, others) {
            return false;
        }
        rest = others;
    }
    true
}

/// Whether ranks are within the limit.
pub fn have_ranks(nodes: &[Node]) -> bool
    ensures { result ≡ list_all (λ n. nat_le n.rank most_rank) (map node_of nodes.now) }
{
    for node in nodes {
        if node.rank > RANK_LIMIT {
            return false;
        }
    }
    true
}

/// Whether the facts of nodes have together at most 4,000,000 units.
pub fn are_small(nodes: &[Node]) -> bool
    ensures { IsTrue result → units_of (map node_of nodes.now) ≤ 4000000 }
{
    let mut left = UNIT_LIMIT;
    for node in nodes {
        let units = node.fact.size();
        if units > left {
            return false;
        }
        left -= units;
    }
    true
}
