//! Pairs of points as pairs of numbers.

ghost use Rattle.std.specs.Prelude.{◌≡◌};
ghost use Rattle.fs_cut.specs.View.{point_of};
ghost use Rattle.cert_model.specs.PointKeys.{point_number, key_of};

use fs_cut::cover::Point;

/// The number of a point: 0 at the start, 1 at the end, and from 2 on the cutpoints by their states. Points have different
/// numbers.
pub fn number_of(point: Point) -> u64
    ensures { result ≡ point_number (point_of point) }
{
    match point {
        Point::Start => 0,
        Point::Done => 1,
        Point::At(state) => u64::from(state.0) + 2,
    }
}

/// The key of two points.
pub fn key_of(left: Point, right: Point) -> (u64, u64)
    ensures { result ≡ key_of (point_of left) (point_of right) }
{
    (number_of(left), number_of(right))
}
