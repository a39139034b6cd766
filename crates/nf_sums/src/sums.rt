//! Sums and products of normal polynomials.

ghost use Rattle.std.specs.Prelude.{◌≡◌, ◌+◌, ◌*◌, ◌≤◌, true, false, map, IfOk, MatchOption};
ghost use Rattle.nf_trees.specs.NormalTerms.{polynomial_of};
ghost use Rattle.nf_trees.specs.View.{term_in};
ghost use Rattle.nf_trees.specs.Measures.{size_of, weight_of};
ghost use Rattle.nf_terms.specs.TermLimits.{weight_limit, size_limit};
ghost use Rattle.nf_terms.specs.Computed.{Answers};
ghost use Rattle.nf_terms.specs.Normal.{IsNormal, constant_part as constant_of_polynomial, is_constant as constant};
ghost use Rattle.nf_sums.specs.Operations.{normal_sum, normal_difference, normal_product as product_of};
ghost use Rattle.nf_sums.specs.Operations.{normal_negation as negated_of};
ghost use Rattle.nf_sums.specs.Operations.{number as number_of};

use crate::limits::check_limits;
use crate::negation::negate_terms;
use crate::owned::merged_owned;
use crate::product::multiply_terms;
use nf_terms::constants::{constant_part, is_constant};
use nf_terms::poly::Poly;
use nf_terms::stop::{NfStop, NoMemory};
use nf_trees::tree::{MonoTree, PolyTree};
use std::alloc::Global;

/// The number that a polynomial is.
///
/// `None` comes exactly where a monomial has an atom.
pub fn constant_of(p: &Poly) -> Option<i128>
    ensures { MatchOption result (constant p.now ≡ false) (λ c. (constant p.now ≡ true) × (c ≡ constant_of_polynomial p.now)) }
{
    if is_constant(p.tree()) {
        Some(constant_part(p.tree()))
    } else {
        None
    }
}

// The polynomial of a normal list of terms.
fn from_terms(monos: Vec<(MonoTree, i128)>) -> Poly
    requires { IsNormal (polynomial_of (map term_in monos.items)) }
    ensures { result ≡ polynomial_of (map term_in monos.items) }
{
    Poly::from_normal(PolyTree { monos })
}

// A copy of the terms of a polynomial.
fn copy_terms(alloc: Global, p: &Poly) -> Result<Vec<(MonoTree, i128)>, NoMemory>
    ensures same { IfOk result (λ copy. polynomial_of (map term_in copy.items) ≡ p.now) }
    ensures normal { IsNormal p.now }
{
    let copy = p.tree().try_clone(alloc)?;
    Ok(copy.monos)
}

// A sum that is narrow and small.
fn narrow_sum(alloc: Global, l: &Poly, r: &Poly) -> Result<Poly, NfStop>
    requires narrow { weight_of l.now + weight_of r.now ≤ weight_limit }
    requires small { size_of l.now + size_of r.now ≤ size_limit }
    ensures { Answers result (normal_sum l.now r.now) }
{
    let left = copy_terms(alloc, l)?;
    let right = copy_terms(alloc, r)?;
    let terms = merged_owned(alloc, left, right)?;
    Ok(from_terms(terms))
}

// A difference that is narrow and small.
fn narrow_difference(alloc: Global, l: &Poly, r: &Poly) -> Result<Poly, NfStop>
    requires narrow { weight_of l.now + weight_of r.now ≤ weight_limit }
    requires small { size_of l.now + size_of r.now ≤ size_limit }
    ensures { Answers result (normal_difference l.now r.now) }
{
    let left = copy_terms(alloc, l)?;
    let right = negate_terms(alloc, r.monos())?;
    let terms = merged_owned(alloc, left, right)?;
    Ok(from_terms(terms))
}

// A product that is narrow and small.
fn narrow_product(alloc: Global, l: &Poly, r: &Poly) -> Result<Poly, NfStop>
    requires narrow { weight_of l.now * weight_of r.now ≤ weight_limit }
    requires small { size_of l.now * size_of r.now ≤ size_limit }
    ensures { Answers result (product_of l.now r.now) }
{
    let terms = multiply_terms(alloc, l.monos(), r.monos())?;
    Ok(from_terms(terms))
}

/// The sum: the normal form of the one raw sum after the other.
///
/// `Wide` comes exactly where the sum of the weights is past 2^127 - 1, and carries the two weights.
/// `Large` comes exactly where it is not and the sum of the sizes is past 4,096, and carries that sum, with depth 0.
/// `NoMemory` comes where memory is refused.
pub fn add(alloc: Global, l: &Poly, r: &Poly) -> Result<Poly, NfStop>
    ensures { Answers result (normal_sum l.now r.now) }
{
    let left = l.weight();
    let right = r.weight();
    check_limits(left, right, left + right, l.size() + r.size())?;
    narrow_sum(alloc, l, r)
}

/// The difference: the normal form of the first raw sum and the negation of the second.
///
/// `Wide` and `Large` come exactly where they come for the sum, and `NoMemory` where memory is refused.
pub fn sub(alloc: Global, l: &Poly, r: &Poly) -> Result<Poly, NfStop>
    ensures { Answers result (normal_difference l.now r.now) }
{
    let left = l.weight();
    let right = r.weight();
    check_limits(left, right, left + right, l.size() + r.size())?;
    narrow_difference(alloc, l, r)
}

/// The product: the normal form of all pairwise products.
///
/// `Wide` comes exactly where the product of the weights is past 2^127 - 1, and carries the two weights.
/// `Large` comes exactly where it is not and the product of the sizes is past 4,096, and carries that product, with depth 0.
/// `NoMemory` comes where memory is refused.
pub fn mul(alloc: Global, l: &Poly, r: &Poly) -> Result<Poly, NfStop>
    ensures { Answers result (product_of l.now r.now) }
{
    let left = l.weight();
    let right = r.weight();
    check_limits(left, right, left.saturating_mul(right), l.size() * r.size())?;
    narrow_product(alloc, l, r)
}

/// The negation: each coefficient negated. The one refusal is out of memory.
pub fn neg(alloc: Global, p: &Poly) -> Result<Poly, NoMemory>
    ensures { IfOk result (λ n. n ≡ negated_of p.now) }
{
    let terms = negate_terms(alloc, p.monos())?;
    Ok(from_terms(terms))
}

/// A number alone.
///
/// `Wide` comes exactly at the least `i128`, with the weights 2^127 and 0, and `NoMemory` where memory is refused.
pub fn number(alloc: Global, c: &i128) -> Result<Poly, NfStop>
    ensures { Answers result (number_of c.now) }
{
    let c = *c;
    if c == i128::MIN {
        return Err(NfStop::Wide {
            left: 1 << 127,
            right: 0,
        });
    }
    Ok(Poly::number(alloc, c)?)
}
