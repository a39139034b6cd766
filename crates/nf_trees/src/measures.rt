//! The size, the depth and the weight of trees, each at most the largest number of its type.

ghost use Rattle.std.specs.Prelude.{◌≡◌, ◌-◌, ◌^◌, min};
ghost use Rattle.nf_trees.specs.View.{atom_in, monomial_in, polynomial_in, array_in};
ghost use Rattle.nf_trees.specs.Measures.{size_of_atom as atom_size, size_of_monomial as monomial_size};
ghost use Rattle.nf_trees.specs.Measures.{size_of as polynomial_size, size_of_array as array_size, depth_of_atom as atom_depth};
ghost use Rattle.nf_trees.specs.Measures.{depth_of_monomial as monomial_depth, depth_of as polynomial_depth};
ghost use Rattle.nf_trees.specs.Measures.{depth_of_array as array_depth, weight_of as polynomial_weight};

use crate::tree::{ArrTree, Atom, MonoTree, PolyTree};

/// The size of an atom, or the largest number.
#[cycle(sizes)]
pub fn size_of_atom(atom: &Atom) -> u64
    ensures { result ≡ min (atom_size (atom_in atom.now)) (2 ^ 64 - 1) }
{
    match atom {
        Atom::Sym(_) => 1,
        Atom::Read(array, index) => {
            let index = size_of_poly(index);
            size_of_arr(array).saturating_add(index).saturating_add(1)
        }
        Atom::Div(left, right) | Atom::Rem(left, right) => size_of_poly(left)
            .saturating_add(size_of_poly(right))
            .saturating_add(1),
    }
}

/// The size of a monomial, or the largest number.
#[cycle(sizes)]
pub fn size_of_mono(mono: &MonoTree) -> u64
    ensures { result ≡ min (monomial_size (monomial_in mono.now)) (2 ^ 64 - 1) }
{
    let mut total = 0u64;
    for atom in &mono.atoms {
        total = total.saturating_add(size_of_atom(atom));
    }
    total
}

/// The size of a polynomial, or the largest number.
#[cycle(sizes)]
pub fn size_of_poly(poly: &PolyTree) -> u64
    ensures { result ≡ min (polynomial_size (polynomial_in poly.now)) (2 ^ 64 - 1) }
{
    let mut total = 0u64;
    for (mono, _coefficient) in &poly.monos {
        total = total.saturating_add(size_of_mono(mono)).saturating_add(1);
    }
    total
}

/// The size of an array, or the largest number.
#[cycle(sizes)]
pub fn size_of_arr(arr: &ArrTree) -> u64
    ensures { result ≡ min (array_size (array_in arr.now)) (2 ^ 64 - 1) }
{
    let mut total = 1u64;
    for (index, value) in &arr.writes {
        total = total
            .saturating_add(size_of_poly(index))
            .saturating_add(size_of_poly(value))
            .saturating_add(1);
    }
    total
}

/// The depth of an atom, or the largest number.
#[cycle(depths)]
pub fn depth_of_atom(atom: &Atom) -> u32
    ensures { result ≡ min (atom_depth (atom_in atom.now)) (2 ^ 32 - 1) }
{
    match atom {
        Atom::Sym(_) => 0,
        Atom::Read(array, index) => depth_of_arr(array).max(depth_of_poly(index).saturating_add(1)),
        Atom::Div(left, right) | Atom::Rem(left, right) => depth_of_poly(left)
            .max(depth_of_poly(right))
            .saturating_add(1),
    }
}

/// The depth of a monomial, or the largest number.
#[cycle(depths)]
pub fn depth_of_mono(mono: &MonoTree) -> u32
    ensures { result ≡ min (monomial_depth (monomial_in mono.now)) (2 ^ 32 - 1) }
{
    let mut deepest = 0u32;
    for atom in &mono.atoms {
        deepest = deepest.max(depth_of_atom(atom));
    }
    deepest
}

/// The depth of a polynomial, or the largest number.
#[cycle(depths)]
pub fn depth_of_poly(poly: &PolyTree) -> u32
    ensures { result ≡ min (polynomial_depth (polynomial_in poly.now)) (2 ^ 32 - 1) }
{
    let mut deepest = 0u32;
    for (mono, _coefficient) in &poly.monos {
        deepest = deepest.max(depth_of_mono(mono));
    }
    deepest
}

/// The depth of an array, or the largest number.
#[cycle(depths)]
pub fn depth_of_arr(arr: &ArrTree) -> u32
    ensures { result ≡ min (array_depth (array_in arr.now)) (2 ^ 32 - 1) }
{
    let mut deepest = 0u32;
    for (index, value) in &arr.writes {
        let write = depth_of_poly(index)
            .max(depth_of_poly(value))
            .saturating_add(1);
        deepest = deepest.max(write);
    }
    deepest
}

/// The weight of a polynomial, or the largest number.
pub fn weight_of_poly(poly: &PolyTree) -> u128
    ensures { result ≡ min (polynomial_weight (polynomial_in poly.now)) (2 ^ 128 - 1) }
{
    let mut total = 0u128;
    for (_mono, coefficient) in &poly.monos {
        total = total.saturating_add(coefficient.unsigned_abs());
    }
    total
}
