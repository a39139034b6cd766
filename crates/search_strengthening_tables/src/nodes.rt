//! Nodes of a search.

ghost use Rattle.std.specs.Prelude.{◌≤◌, length};

use cert_bisimulation::mode::Mode;
use fs_cut::cover::Point;
use search_strengthening_claims::claims::Claims;
use sym_facts::fact::Fact;

/// What is known of a move.
#[derive(Clone, Copy)]
pub enum Settled {
    /// Nothing: it has not been tried under the node's fact.
    Open,
    /// What arrives is refuted.
    Refuted,
    /// What arrives entailed the fact that has this version.
    Held { version: usize },
}

/// A move of a node: the numbers of the paths that it takes, and what is known of it.
#[derive(Clone, Copy)]
pub struct NodeMove {
    pub left: Option<usize>,
    pub right: Option<usize>,
    pub settled: Settled,
}

/// Where a node stands in the order of nodes: by the outermost components of its points, left and right, then by their own
/// numbers, and then by its case. So a strongly connected component of pairs of points, or several, stands behind all from which
/// it is reached. How many points the two components have is kept beside.
#[derive(Clone, Copy)]
pub struct Standing {
    pub components: (usize, usize),
    pub numbers: (usize, usize),
    pub case: usize,
    pub points: usize,
}

// Whether a pair comes after another one, by the left number and then by the right one.
fn is_later(pair: (usize, usize), other: (usize, usize)) -> bool {
    pair.0 > other.0 || (pair.0 == other.0 && pair.1 > other.1)
}

impl Standing {
    /// Whether both points stand in the same outermost components as others.
    pub fn shares_components(self, other: Standing) -> bool {
        self.components.0 == other.components.0 && self.components.1 == other.components.1
    }

    /// Whether the components come before those of others.
    pub fn is_in_earlier_components(self, other: Standing) -> bool {
        is_later(other.components, self.components)
    }

    // Whether the points are others.
    fn shares_points(self, other: Standing) -> bool {
        self.numbers.0 == other.numbers.0 && self.numbers.1 == other.numbers.1
    }

    // Whether the points come after others in the same components, or the case after another one of the same points.
    fn comes_after_within(self, other: Standing) -> bool {
        is_later(self.numbers, other.numbers)
            || (self.shares_points(other) && self.case > other.case)
    }

    // Whether the node comes after another one.
    fn comes_after(self, other: Standing) -> bool {
        is_later(self.components, other.components)
            || (self.shares_components(other) && self.comes_after_within(other))
    }
}

/// A node with its claims: two points, and where it stands in the order with its case, where the node stands from which it was
/// last reached, what is claimed there and the fact that is made of it. No two facts of a search have one version. The mode is
/// not known before the moves are.
#[derive(Drop)]
pub struct ClaimedNode {
    pub left: Point,
    pub right: Point,
    pub standing: Standing,
    pub source: Standing,
    pub claims: Claims,
    pub fact: Fact,
    pub units: u64,
    pub version: usize,
    pub mode: Option<Mode>,
    pub moves: Vec<NodeMove>,
}

/// The place of the node at two points in a case.
pub fn find(nodes: &[ClaimedNode], left: Point, right: Point, case: usize) -> Option<usize> {
    for (place, node) in nodes.iter().enumerate() {
        if node.standing.case == case && node.left.is_same(left) && node.right.is_same(right) {
            return Some(place);
        }
    }
    None
}

/// How many nodes stand at two points.
pub fn count_at(nodes: &[ClaimedNode], left: Point, right: Point) -> usize {
    let mut count = 0usize;
    for node in nodes {
        if node.left.is_same(left) && node.right.is_same(right) {
            count = count.saturating_add(1);
        }
    }
    count
}

/// The place of the node whose fact has a version.
pub fn find_version(nodes: &[ClaimedNode], version: usize) -> Option<usize> {
    for (place, node) in nodes.iter().enumerate() {
        if node.version == version {
            return Some(place);
        }
    }
    None
}

/// The place at which a node that stands there keeps the order.
pub fn place_for(nodes: &[ClaimedNode], standing: Standing) -> usize
    ensures { result ≤ length nodes.now }
{
    for (place, node) in nodes.iter().enumerate() {
        if node.standing.comes_after(standing) {
            return place;
        }
    }
    nodes.len()
}

/// The place of the first node that stands in these components or in later ones; behind all where there is none.
pub fn first_in_components(nodes: &[ClaimedNode], standing: Standing) -> usize {
    for (place, node) in nodes.iter().enumerate() {
        if !node.standing.is_in_earlier_components(standing) {
            return place;
        }
    }
    nodes.len()
}

/// The units of all facts.
pub fn units_of(nodes: &[ClaimedNode]) -> u64 {
    let mut units = 0u64;
    for node in nodes {
        units = units.saturating_add(node.units);
    }
    units
}
