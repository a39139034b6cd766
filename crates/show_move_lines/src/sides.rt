//! The two machines, each with its cover, and their pairing.

ghost use Rattle.std.specs.Prelude.{◌≡◌, option_map};
ghost use Rattle.fs_cut.specs.Covers.{cover_of};
ghost use Rattle.fs_cut.specs.View.{point_of, path_of};
ghost use Rattle.fs_pair.specs.Positions.{positions};
ghost use Rattle.show_move_lines.specs.MoveReplays.{branch_path};

use fs_ast::machine::Machine;
use fs_cut::cover::{Cover, Path, Point};
use fs_pair::positions::Pairing;
use search_places::moves::path_by;

/// The two machines, each with its cover, and their pairing.
#[derive(Drop)]
pub struct Sides<'a> {
    pub left: &'a Machine,
    pub right: &'a Machine,
    pub pairing: &'a Pairing,
    pub left_cover: &'a Cover,
    pub right_cover: &'a Cover,
    pub ghost paired: { pairing.now ≡ positions left.now right.now },
    pub ghost left_is: { left_cover.now ≡ cover_of left.now },
    pub ghost right_is: { right_cover.now ≡ cover_of right.now },
}

/// The path of the left machine from a point by a branch.
pub fn left_path<'a>(m: &Sides<'a>, from: Point, branch: Option<u32>) -> Option<&'a Path>
    ensures { option_map (λ p. path_of p.now) result ≡ branch_path m.now.left.now (point_of from) branch }
{
    path_by(m.left_cover.from(from), branch)
}

/// The path of the right machine from a point by a branch.
pub fn right_path<'a>(m: &Sides<'a>, from: Point, branch: Option<u32>) -> Option<&'a Path>
    ensures { option_map (λ p. path_of p.now) result ≡ branch_path m.now.right.now (point_of from) branch }
{
    path_by(m.right_cover.from(from), branch)
}
