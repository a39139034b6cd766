//! Products of ordered lists of terms.

ghost use Rattle.std.specs.Prelude.{◌≡◌, ◌*ℤ◌, ◌*◌, ◌≤◌, ◌++◌, ◌∷◌, [], map, OnOk, IfOk, IsTrue, unsigned_abs, length};
ghost use Rattle.nf_trees.specs.NormalTerms.{polynomial_of};
ghost use Rattle.nf_trees.specs.View.{monomial_in, term_in};
ghost use Rattle.nf_trees.specs.Measures.{weight_of};
ghost use Rattle.nf_terms.specs.TermLimits.{weight_limit};
ghost use Rattle.nf_terms.specs.Normal.{ordered};
ghost use Rattle.nf_sums.specs.OrderedSums.{IsOrderedProduct};

use crate::join::multiply_monomials;
use crate::owned::merged_owned;
use nf_terms::copies::push_term;
use nf_terms::stop::NoMemory;
use nf_trees::tree::MonoTree;
use std::alloc::Global;

/// Adds a monomial with the product of two coefficients.
fn push_product(
    out: &mut Vec<(MonoTree, i128)>,
    mono: MonoTree,
    first: &i128,
    second: &i128,
) -> Result<(), NoMemory>
    requires { unsigned_abs first.now * unsigned_abs second.now ≤ weight_limit }
    ensures { OnOk result
        (map term_in out.new.items ≡ map term_in out.old.items ++ (monomial_in mono, first.now *ℤ second.now) ∷ []) }
{
    let product = *first * *second;
    push_term(out, mono, &product)
}

/// Puts the product of two ordered lists of at most one term into an empty list.
fn multiply_firsts(
    alloc: Global,
    out: &mut Vec<(MonoTree, i128)>,
    l: &[(MonoTree, i128)],
    r: &[(MonoTree, i128)],
) -> Result<(), NoMemory>
    requires empty { out.old.items ≡ [] }
    requires left { IsTrue (ordered (polynomial_of (map term_in l.now))) }
    requires right { IsTrue (ordered (polynomial_of (map term_in r.now))) }
    requires narrow { weight_of (polynomial_of (map term_in l.now)) * weight_of (polynomial_of (map term_in r.now))
        ≤ weight_limit }
    requires left_short { length l.now ≤ 1 }
    requires right_short { length r.now ≤ 1 }
    ensures { OnOk result
        (IsOrderedProduct (polynomial_of (map term_in l.now)) (polynomial_of (map term_in r.now))
        (polynomial_of (map term_in out.new.items))) }
{
    let Some((mono, coefficient)) = l.first() else {
        return Ok(());
    };
    let Some((other, factor)) = r.first() else {
        return Ok(());
    };
    let product = multiply_monomials(alloc, mono, other)?;
    push_product(out, product, coefficient, factor)
}

/// The product of two ordered lists of at most one term.
fn single(
    alloc: Global,
    l: &[(MonoTree, i128)],
    r: &[(MonoTree, i128)],
) -> Result<Vec<(MonoTree, i128)>, NoMemory>
    requires left { IsTrue (ordered (polynomial_of (map term_in l.now))) }
    requires right { IsTrue (ordered (polynomial_of (map term_in r.now))) }
    requires narrow { weight_of (polynomial_of (map term_in l.now)) * weight_of (polynomial_of (map term_in r.now))
        ≤ weight_limit }
    requires left_short { length l.now ≤ 1 }
    requires right_short { length r.now ≤ 1 }
    ensures { IfOk result
        (λ v. IsOrderedProduct (polynomial_of (map term_in l.now)) (polynomial_of (map term_in r.now))
        (polynomial_of (map term_in v.items))) }
{
    let mut out = Vec::new(alloc);
    multiply_firsts(alloc, &mut out, l, r)?;
    Ok(out)
}

/// The product of two ordered lists of terms, the product of whose weights is within the limit.
///
/// A list of more than one term is halved, and the products of the halves are merged.
pub fn multiply_terms(
    alloc: Global,
    l: &[(MonoTree, i128)],
    r: &[(MonoTree, i128)],
) -> Result<Vec<(MonoTree, i128)>, NoMemory>
    requires left { IsTrue (ordered (polynomial_of (map term_in l.now))) }
    requires right { IsTrue (ordered (polynomial_of (map term_in r.now))) }
    requires narrow { weight_of (polynomial_of (map term_in l.now)) * weight_of (polynomial_of (map term_in r.now))
        ≤ weight_limit }
    ensures { IfOk result
        (λ v. IsOrderedProduct (polynomial_of (map term_in l.now)) (polynomial_of (map term_in r.now))
        (polynomial_of (map term_in v.items))) }
{
    if l.len() > 1 {
        let (front, back) = l.split_at(l.len() / 2);
        let front = multiply_terms(alloc, front, r)?;
        let back = multiply_terms(alloc, back, r)?;
        return merged_owned(alloc, front, back);
    }
    if r.len() > 1 {
        let (front, back) = r.split_at(r.len() / 2);
        let front = multiply_terms(alloc, l, front)?;
        let back = multiply_terms(alloc, l, back)?;
        return merged_owned(alloc, front, back);
    }
    single(alloc, l, r)
}
