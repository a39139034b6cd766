//! Claims that are weeded before a search.

use crate::claims::Claims;
use fs_cut::cover::Point;

/// Two points, and what has held at every visit of them.
#[derive(Drop)]
pub struct VisitedPoints {
    pub left: Point,
    pub right: Point,
    pub claims: Claims,
}

/// What has held at every visit of two points, where there was one.
pub fn claims_at(all: &[VisitedPoints], left: Point, right: Point) -> Option<&Claims> {
    for visited in all {
        if visited.left.is_same(left) && visited.right.is_same(right) {
            return Some(&visited.claims);
        }
    }
    None
}
