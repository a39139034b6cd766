//! Certificates: nodes at pairs of points.

use cert_bisimulation::mode::Mode;
use fs_cut::cover::Point;
use sym_facts::fact::Fact;

/// A pair of points with a fact on the two stores there, the machines that move from it, and a rank that
/// falls along the moves of one machine alone.
#[derive(Drop)]
pub struct Node {
    pub left: Point,
    pub right: Point,
    pub mode: Mode,
    /// At most 4,096.
    pub rank: u32,
    pub fact: Fact,
}

/// A certificate: nodes, of which several may stand at a pair of points.
#[derive(Drop)]
pub struct Cert {
    pub nodes: Vec<Node>,
}
