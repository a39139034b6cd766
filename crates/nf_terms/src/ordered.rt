//! Whether a tree is in order: whether it is normal, but for its limits.

ghost use Rattle.std.specs.Prelude.{◌≡◌, map};
ghost use Rattle.nf_trees.specs.NormalTerms.{monomial_of, polynomial_of, writes_of};
ghost use Rattle.nf_trees.specs.View.{atom_in, monomial_in, polynomial_in, array_in, term_in, write_in};
ghost use Rattle.nf_terms.specs.Normal.{is_written as written, write_rises as rises, stays_read as stays, ordered_atom};
ghost use Rattle.nf_terms.specs.Normal.{ordered_monomial, ordered, ordered_array};
ghost use Rattle.nf_terms.specs.Normal.{atom_rises as rising_atom, monomial_rises as rising_monomial};

use crate::constants::{constant_part, differs_by_constant, is_constant};
use crate::tree::{ArrTree, Atom, Base, MonoTree, PolyTree};
use nf_trees::order::{compare_atoms, compare_monos, compare_polys};
use std::cmp::Ordering;

/// Whether one of the writes is at this index.
pub fn is_written(index: &PolyTree, writes: &[(PolyTree, PolyTree)]) -> bool
    ensures { result ≡ written (polynomial_in index.now) (writes_of (map write_in writes.now)) }
{
    for (other, _value) in writes {
        if compare_polys(index, other).is_eq() {
            return true;
        }
    }
    false
}

/// Whether the next write's index is greater, where the two differ by a constant.
pub fn write_rises(index: &PolyTree, writes: &[(PolyTree, PolyTree)]) -> bool
    ensures { result ≡ rises (polynomial_in index.now) (writes_of (map write_in writes.now)) }
{
    match writes.first() {
        None => true,
        Some((next, _value)) => {
            !differs_by_constant(index, next) || constant_part(index) < constant_part(next)
        }
    }
}

// Whether an atom does not stand after the next one.
fn atom_rises(atom: &Atom, later: &[Atom]) -> bool
    ensures { result ≡ rising_atom (atom_in atom.now) (monomial_of (map atom_in later.now)) }
{
    match later {
        [] => true,
        [next, ..] => compare_atoms(atom, next) != Ordering::Greater,
    }
}

// Whether a monomial stands before the next one.
fn monomial_rises(mono: &MonoTree, later: &[(MonoTree, i128)]) -> bool
    ensures { result ≡ rising_monomial (monomial_in mono.now) (polynomial_of (map term_in later.now)) }
{
    match later {
        [] => true,
        [(next, _coefficient), ..] => compare_monos(mono, next) == Ordering::Less,
    }
}

/// Whether a read of the array at the index stays an atom.
pub fn stays_read(array: &ArrTree, index: &PolyTree) -> bool
    ensures { result ≡ stays (array_in array.now) (polynomial_in index.now) }
{
    match array.writes.last() {
        Some((last, _value)) => !differs_by_constant(last, index),
        None => match array.base {
            Base::Zero => false,
            Base::Sym(_) => true,
        },
    }
}

/// Whether an atom is in order.
#[cycle(ordered)]
pub fn is_ordered_atom(atom: &Atom) -> bool
    ensures { result ≡ ordered_atom (atom_in atom.now) }
{
    match atom {
        Atom::Sym(_) => true,
        Atom::Read(array, index) => {
            is_ordered_arr(array) && is_ordered_poly(index) && stays_read(array, index)
        }
        Atom::Div(left, right) | Atom::Rem(left, right) => {
            is_ordered_poly(left)
                && is_ordered_poly(right)
                && !(is_constant(left) && is_constant(right))
        }
    }
}

/// Whether a monomial is in order.
#[cycle(ordered)]
pub fn is_ordered_mono(mono: &MonoTree) -> bool
    ensures { result ≡ ordered_monomial (monomial_in mono.now) }
{
    for (i, atom) in mono.atoms.iter().enumerate() {
        if !is_ordered_atom(atom) {
            return false;
        }
        if !atom_rises(atom, &mono.atoms[i + 1..]) {
            return false;
        }
    }
    true
}

/// Whether a polynomial is in order.
#[cycle(ordered)]
pub fn is_ordered_poly(poly: &PolyTree) -> bool
    ensures { result ≡ ordered (polynomial_in poly.now) }
{
    for (i, term) in poly.monos.iter().enumerate() {
        if term.1 == 0 {
            return false;
        }
        if !is_ordered_mono(&term.0) {
            return false;
        }
        if !monomial_rises(&term.0, &poly.monos[i + 1..]) {
            return false;
        }
    }
    true
}

/// Whether an array is in order.
#[cycle(ordered)]
pub fn is_ordered_arr(arr: &ArrTree) -> bool
    ensures { result ≡ ordered_array (array_in arr.now) }
{
    for (i, write) in arr.writes.iter().enumerate() {
        if !is_ordered_poly(&write.0) {
            return false;
        }
        if !is_ordered_poly(&write.1) {
            return false;
        }
        let later = &arr.writes[i + 1..];
        if is_written(&write.0, later) {
            return false;
        }
        if !write_rises(&write.0, later) {
            return false;
        }
    }
    true
}
