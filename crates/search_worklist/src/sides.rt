//! The two machines, each with its cover, and their pairing.

ghost use Rattle.std.specs.Prelude.{◌≡◌, ◌≤◌, IsTrue, length, map};
ghost use Rattle.fs_model.specs.Limits.{most_branches};
ghost use Rattle.fs_cut.specs.Paths.{is_point};
ghost use Rattle.fs_cut.specs.Covers.{cover_of, paths_of};
ghost use Rattle.fs_cut.specs.View.{point_of, path_of};
ghost use Rattle.fs_pair.specs.Positions.{positions};

use cert_model::covers::paths;
use fs_ast::machine::Machine;
use fs_cut::cover::{Cover, Path, Point};
use fs_pair::positions::Pairing;

/// The two machines, each with its cover, and their pairing.
#[derive(Drop)]
pub struct Sides<'a> {
    pub left: &'a Machine,
    pub right: &'a Machine,
    pub pairing: &'a Pairing,
    pub left_cover: &'a Cover,
    pub right_cover: &'a Cover,
    pub ghost paired: { pairing.now ≡ positions left.now right.now },
    pub ghost left_is: { left_cover.now ≡ cover_of left.now },
    pub ghost right_is: { right_cover.now ≡ cover_of right.now },
}

/// The paths of a point of the left machine.
pub fn left_paths<'a>(m: &Sides<'a>, point: Point) -> &'a [Path]
    requires { IsTrue (is_point m.now.left.now (point_of point)) }
    ensures paths { map path_of result.now ≡ paths_of m.now.left.now (point_of point) }
    ensures few { length result.now ≤ most_branches }
{
    paths(m.left, m.left_cover, point)
}

/// The paths of a point of the right machine.
pub fn right_paths<'a>(m: &Sides<'a>, point: Point) -> &'a [Path]
    requires { IsTrue (is_point m.now.right.now (point_of point)) }
    ensures paths { map path_of result.now ≡ paths_of m.now.right.now (point_of point) }
    ensures few { length result.now ≤ most_branches }
{
    paths(m.right, m.right_cover, point)
}
