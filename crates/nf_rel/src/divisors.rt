//! The common divisor of coefficients.

ghost use Rattle.std.specs.Prelude.{◌≡◌, ◌≢◌, ◌≤◌, map, pos, cond, IfOk, OnOk, ◌++◌, ◌∷◌, [], int_div, unsigned_abs};
ghost use Rattle.nf_trees.specs.NormalTerms.{polynomial_of};
ghost use Rattle.nf_trees.specs.View.{monomial_in, term_in};
ghost use Rattle.nf_trees.specs.Measures.{weight_of};
ghost use Rattle.nf_terms.specs.Normal.{has_atoms, part_with_atoms};
ghost use Rattle.nf_terms.specs.TermLimits.{weight_limit};
ghost use Rattle.nf_rel.specs.Gcd.{gcd};
ghost use Rattle.nf_rel.specs.Literals.{common_divisor, divide_coefficients};

use nf_sums::copies::push_term_copy;
use nf_terms::constants::has_atoms;
use nf_terms::stop::NoMemory;
use nf_trees::tree::MonoTree;
use std::alloc::Global;

// The greatest common divisor.
fn gcd(a: u128, b: u128) -> u128
    ensures { result ≡ gcd a b }
{
    let mut x = a;
    let mut y = b;
    while y != 0 {
        let rest = x % y;
        x = y;
        y = rest;
    }
    x
}

/// The greatest common divisor of the coefficients of monomials with atoms.
pub fn divisor(terms: &[(MonoTree, i128)]) -> u128
    ensures { result ≡ common_divisor (part_with_atoms (polynomial_of (map term_in terms.now))) }
{
    let mut divisor = 0;
    let mut place = terms.len();
    while place > 0 {
        place -= 1;
        let (mono, coefficient) = &terms[place];
        if has_atoms(mono) {
            divisor = gcd(coefficient.unsigned_abs(), divisor);
        }
    }
    divisor
}

// Adds a copy of a monomial with its coefficient divided, where the monomial has an atom.
fn push_divided(
    alloc: Global,
    out: &mut Vec<(MonoTree, i128)>,
    mono: &MonoTree,
    coefficient: &i128,
    by: &i128,
) -> Result<(), NoMemory>
    requires nonzero { by.now ≢ pos 0 }
    requires small { unsigned_abs coefficient.now ≤ weight_limit }
    ensures { OnOk result
        (map term_in out.new.items ≡ map term_in out.old.items
        ++ cond (has_atoms (monomial_in mono.now)) ((monomial_in mono.now, int_div coefficient.now by.now) ∷ []) []) }
{
    if !has_atoms(mono) {
        return Ok(());
    }
    let quotient = *coefficient / *by;
    push_term_copy(alloc, out, mono, &quotient)
}

/// The monomials with atoms, each coefficient divided.
pub fn divide_monomials(
    alloc: Global,
    terms: &[(MonoTree, i128)],
    by: &i128,
) -> Result<Vec<(MonoTree, i128)>, NoMemory>
    requires nonzero { by.now ≢ pos 0 }
    requires small { weight_of (polynomial_of (map term_in terms.now)) ≤ weight_limit }
    ensures { IfOk result
        (λ out. polynomial_of (map term_in out.items) ≡ divide_coefficients
        (part_with_atoms (polynomial_of (map term_in terms.now))) by.now) }
{
    let mut out = Vec::new(alloc);
    for (mono, coefficient) in terms {
        push_divided(alloc, &mut out, mono, coefficient, by)?;
    }
    Ok(out)
}
