//! Whether a tree is normal and within the limits.

ghost use Rattle.std.specs.Prelude.{◌↔◌, IsTrue};
ghost use Rattle.nf_trees.specs.View.{polynomial_in, array_in};
ghost use Rattle.nf_terms.specs.Normal.{IsNormal, IsNormalArray};

use crate::limits::{DEPTH_LIMIT, SIZE_LIMIT};
use crate::narrow::{is_light, is_narrow_arr, is_narrow_inside};
use crate::ordered::{is_ordered_arr, is_ordered_poly};
use crate::tree::{ArrTree, PolyTree};
use nf_trees::measures::{depth_of_arr, depth_of_poly, size_of_arr, size_of_poly};

/// Whether a polynomial is normal and within the limits in all its parts.
pub fn is_normal_poly(poly: &PolyTree) -> bool
    ensures { IsTrue result ↔ IsNormal (polynomial_in poly.now) }
{
    size_of_poly(poly) <= SIZE_LIMIT
        && depth_of_poly(poly) <= DEPTH_LIMIT
        && is_light(poly)
        && is_narrow_inside(poly)
        && is_ordered_poly(poly)
}

/// Whether an array is normal and within the limits in all its parts.
pub fn is_normal_arr(arr: &ArrTree) -> bool
    ensures { IsTrue result ↔ IsNormalArray (array_in arr.now) }
{
    size_of_arr(arr) <= SIZE_LIMIT
        && depth_of_arr(arr) <= DEPTH_LIMIT
        && is_narrow_arr(arr)
        && is_ordered_arr(arr)
}
