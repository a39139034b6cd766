//! Pairs of points, as keys.

use cert_model::keys::number_of;
use fs_cut::cover::Point;
use std::hash::{Hash, Hasher};

/// The two points of a node.
#[derive(Clone, Copy)]
pub struct PointPair {
    pub left: Point,
    pub right: Point,
}

impl PartialEq for PointPair {
    ghost use Rattle.search_tables.specs.Pairs.{same_pair, pairs_partly};

    ghost eq = { same_pair };

    ghost laws = { pairs_partly };

    fn eq(&self, other: &PointPair) -> bool {
        other.left.is_same(self.left) && other.right.is_same(self.right)
    }
}

impl Eq for PointPair {
    ghost use Rattle.search_tables.specs.Pairs.{pairs_same};

    ghost laws = { pairs_same };
}

impl Hash for PointPair {
    ghost use Rattle.std.specs.Hash as fed;
    ghost use Rattle.std.specs.Prelude.{◌++◌};
    ghost use Rattle.fs_cut.specs.View.{point_of};
    ghost use Rattle.cert_model.specs.PointKeys.{point_number as number};
    ghost use Rattle.search_tables.specs.Pairs.{pairs_alike};

    ghost hash_input = { λ p. fed.u64 (number (point_of p.left)) ++ fed.u64 (number (point_of p.right)) };

    ghost respects_eq = { pairs_alike };

    fn hash<H: Hasher>(&self, state: &mut H) {
        state.write_u64(number_of(self.left));
        state.write_u64(number_of(self.right));
    }
}
