//! Whether the polynomials in a tree are within the limit of weight.

ghost use Rattle.std.specs.Prelude.{◌≡◌};
ghost use Rattle.nf_trees.specs.View.{atom_in, monomial_in, polynomial_in, array_in};
ghost use Rattle.nf_terms.specs.Normal.{is_light as light, narrow_atom, narrow_monomial, narrow_inside, narrow_array};

use crate::limits::WEIGHT_LIMIT;
use crate::tree::{ArrTree, Atom, MonoTree, PolyTree};
use nf_trees::measures::weight_of_poly;

/// Whether a polynomial itself is within the limit of weight.
pub fn is_light(poly: &PolyTree) -> bool
    ensures { result ≡ light (polynomial_in poly.now) }
{
    weight_of_poly(poly) <= WEIGHT_LIMIT
}

/// Whether the polynomials in an atom are within the limit of weight.
#[cycle(narrows)]
pub fn is_narrow_atom(atom: &Atom) -> bool
    ensures { result ≡ narrow_atom (atom_in atom.now) }
{
    match atom {
        Atom::Sym(_) => true,
        Atom::Read(array, index) => {
            is_narrow_arr(array) && is_light(index) && is_narrow_inside(index)
        }
        Atom::Div(left, right) | Atom::Rem(left, right) => {
            is_light(left) && is_narrow_inside(left) && is_light(right) && is_narrow_inside(right)
        }
    }
}

/// Whether the polynomials in a monomial are within the limit of weight.
#[cycle(narrows)]
pub fn is_narrow_mono(mono: &MonoTree) -> bool
    ensures { result ≡ narrow_monomial (monomial_in mono.now) }
{
    for atom in &mono.atoms {
        if !is_narrow_atom(atom) {
            return false;
        }
    }
    true
}

/// Whether the polynomials inside a polynomial are within the limit of weight.
#[cycle(narrows)]
pub fn is_narrow_inside(poly: &PolyTree) -> bool
    ensures { result ≡ narrow_inside (polynomial_in poly.now) }
{
    for (mono, _coefficient) in &poly.monos {
        if !is_narrow_mono(mono) {
            return false;
        }
    }
    true
}

/// Whether the polynomials in an array are within the limit of weight.
#[cycle(narrows)]
pub fn is_narrow_arr(arr: &ArrTree) -> bool
    ensures { result ≡ narrow_array (array_in arr.now) }
{
    for (index, value) in &arr.writes {
        if !is_light(index) {
            return false;
        }
        if !is_narrow_inside(index) {
            return false;
        }
        if !is_light(value) {
            return false;
        }
        if !is_narrow_inside(value) {
            return false;
        }
    }
    true
}
