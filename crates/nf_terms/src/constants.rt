//! The constant part of a polynomial, and what stands beside it.

ghost use Rattle.std.specs.Prelude.{◌≡◌, map, true};
ghost use Rattle.nf_trees.specs.NormalTerms.{polynomial_of};
ghost use Rattle.nf_trees.specs.View.{monomial_in, polynomial_in, term_in};
ghost use Rattle.nf_terms.specs.Normal.{has_atoms as with_atoms, begins_with_atoms, part_with_atoms};
ghost use Rattle.nf_terms.specs.Normal.{constant_part as constant_of, is_constant as constant, differ_by_constant};

use crate::tree::{MonoTree, PolyTree};
use nf_trees::order::compare_monos;

/// Whether a monomial has an atom.
#[tactic(auto, using(crate::proofs::Steps::has_atoms_in))]
pub fn has_atoms(mono: &MonoTree) -> bool
    ensures { result ≡ with_atoms (monomial_in mono.now) }
{
    !mono.atoms.is_empty()
}

/// Whether no monomial of a polynomial has an atom.
#[tactic(auto, using(crate::proofs::Steps::constants))]
pub fn is_constant(poly: &PolyTree) -> bool
    ensures { result ≡ constant (polynomial_in poly.now) }
{
    for (mono, _coefficient) in &poly.monos {
        if has_atoms(mono) {
            return false;
        }
    }
    true
}

/// The coefficient of the monomial without atoms, or 0.
#[tactic(auto, using(crate::proofs::Steps::constants))]
pub fn constant_part(poly: &PolyTree) -> i128
    ensures { result ≡ constant_of (polynomial_in poly.now) }
{
    for (mono, coefficient) in &poly.monos {
        if !has_atoms(mono) {
            return *coefficient;
        }
    }
    0
}

/// The monomials from the first one with atoms.
#[tactic(auto, using(crate::proofs::Steps::constants))]
fn skip_constants(terms: &[(MonoTree, i128)]) -> &[(MonoTree, i128)]
    ensures same { part_with_atoms (polynomial_of (map term_in result.now))
        ≡ part_with_atoms (polynomial_of (map term_in terms.now)) }
    ensures begins { begins_with_atoms (polynomial_of (map term_in result.now)) ≡ true }
{
    for (place, (mono, _coefficient)) in terms.iter().enumerate() {
        if has_atoms(mono) {
            return &terms[place..];
        }
    }
    &[]
}

/// Whether the monomials with atoms, coefficients included, are the same.
#[tactic(auto, using(crate::proofs::Steps::constants))]
pub fn differs_by_constant(left: &PolyTree, right: &PolyTree) -> bool
    ensures { result ≡ differ_by_constant (polynomial_in left.now) (polynomial_in right.now) }
{
    let mut rest = skip_constants(&right.monos);
    for (mono, coefficient) in &left.monos {
        if !has_atoms(mono) {
            continue;
        }
        let Some((other, after)) = rest.split_first() else {
            return false;
        };
        if !compare_monos(mono, &other.0)
            .then(coefficient.cmp(&other.1))
            .is_eq()
        {
            return false;
        }
        rest = skip_constants(after);
    }
    rest.is_empty()
}
