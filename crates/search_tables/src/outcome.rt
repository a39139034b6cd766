//! How a search ends.

use crate::moves::Move;
use crate::pairs::PointPair;
use cert_model::cert::Cert;
use nf_terms::tree::Side;

/// What a table is held to.
#[derive(Clone, Copy)]
pub enum Budget {
    /// 4,096 nodes.
    Nodes,
    /// 4,000,000 units: 1 for each node, and the sizes of its equations and literals.
    Units,
}

/// Why a list of moves ends without a certificate.
#[derive(Drop)]
pub enum Obstacle {
    /// At this node both machines are done, and the two terms of this left output differ.
    Stuck { node: u32, var: u32 },
    /// These nodes follow one another by moves of this side alone, the last leading back to the first.
    Spin { side: Side, cycle: Vec<u32> },
    /// An operation of this move is not narrow; where a mode was being found, of this one path.
    Wide { at: Move },
    /// An operation of this move is narrow and not small; where a mode was being found, of this one path.
    Large { at: Move },
    /// This move would pass a budget.
    Exhausted { at: Move, what: Budget },
}

/// How a search ends: with a certificate, or at an obstacle. `moves` are those that made the table, in order, each of which made
/// a node, freed a position or dropped a condition; `points` are those of the table's nodes.
#[derive(Drop)]
pub enum Outcome {
    /// All obligations of the certificate hold.
    Closed(Cert),
    /// At this node both machines are done, and the two terms of this left output differ.
    Stuck {
        moves: Vec<Move>,
        points: Vec<PointPair>,
        node: u32,
        var: u32,
    },
    /// These nodes follow one another by moves of this side alone, the last leading back to the first.
    Spin {
        moves: Vec<Move>,
        points: Vec<PointPair>,
        side: Side,
        cycle: Vec<u32>,
    },
    /// An operation of this move is not narrow; where a mode was being found, of this one path.
    Wide {
        moves: Vec<Move>,
        points: Vec<PointPair>,
        at: Move,
    },
    /// An operation of this move is narrow and not small; where a mode was being found, of this one path.
    Large {
        moves: Vec<Move>,
        points: Vec<PointPair>,
        at: Move,
    },
    /// This move would pass a budget.
    Exhausted {
        moves: Vec<Move>,
        points: Vec<PointPair>,
        at: Move,
        what: Budget,
    },
}
