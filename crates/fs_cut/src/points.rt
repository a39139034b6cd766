//! Which points a machine has.

ghost use Rattle.std.specs.Prelude.{◌≡◌};
ghost use Rattle.fs_cut.specs.Paths.{is_point};
ghost use Rattle.fs_cut.specs.View.{point_of};

use crate::cover::Point;
use fs_ast::machine::Machine;

/// Whether a point is one of a machine's: the start, the return to the reset state, or a state other than the reset state
/// with more than one branch. Takes no memory.
pub fn is_point(m: &Machine, point: Point) -> bool
    ensures { result ≡ is_point m.now (point_of point) }
{
    match point {
        Point::Start | Point::Done => true,
        Point::At(state) => {
            state.0 < m.state_count() && state.0 != m.reset().0 && m.branches(state).len() > 1
        }
    }
}
