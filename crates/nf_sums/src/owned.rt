//! Merges of ordered lists of terms that are given away: their monomials are moved.

ghost use Rattle.std.specs.Prelude.{◌≡◌, ◌+ℤ◌, ◌++◌, map, take, drop, length, OnOk, IfOk, IsTrue, ◌+◌, ◌≤◌, ◌<◌, unsigned_abs};
ghost use Rattle.nf_trees.specs.NormalTerms.{polynomial_of};
ghost use Rattle.nf_trees.specs.View.{monomial_in, term_in};
ghost use Rattle.nf_trees.specs.Measures.{weight_of};
ghost use Rattle.nf_terms.specs.TermLimits.{weight_limit};
ghost use Rattle.nf_terms.specs.Normal.{ordered};
ghost use Rattle.nf_sums.specs.OrderedSums.{IsOrderedSum, term_unless_zero, first_order, joined_firsts};

use nf_terms::copies::push_term;
use nf_terms::order::compare_monos;
use nf_terms::stop::NoMemory;
use nf_trees::tree::MonoTree;
use std::alloc::Global;
use std::cmp::Ordering;
use std::collections::VecDeque;

// How the first monomials of two lists stand; a list that has ended stands behind. `None` where both have ended.
fn order_of_firsts(
    left: &VecDeque<(MonoTree, i128)>,
    right: &VecDeque<(MonoTree, i128)>,
) -> Option<Ordering>
    ensures { result ≡ first_order (polynomial_of (map term_in left.now.items)) (polynomial_of (map term_in right.now.items)) }
{
    match left.front() {
        None => match right.front() {
            None => None,
            Some(_term) => Some(Ordering::Greater),
        },
        Some((mono, _coefficient)) => match right.front() {
            None => Some(Ordering::Less),
            Some((other, _coefficient)) => Some(compare_monos(mono, other)),
        },
    }
}

// Moves the first term of a list behind other terms.
fn move_first(
    out: &mut Vec<(MonoTree, i128)>,
    from: &mut VecDeque<(MonoTree, i128)>,
) -> Result<(), NoMemory>
    ensures moved { OnOk result (out.new.items ≡ out.old.items ++ take 1 from.old.items) }
    ensures rest { from.new.items ≡ drop 1 from.old.items }
{
    if let Some(term) = from.pop_front() {
        out.push(term)?;
    }
    Ok(())
}

// Adds a monomial with the sum of two coefficients, unless that is 0.
fn push_sum(
    out: &mut Vec<(MonoTree, i128)>,
    mono: MonoTree,
    first: &i128,
    second: &i128,
) -> Result<(), NoMemory>
    requires { unsigned_abs first.now + unsigned_abs second.now ≤ weight_limit }
    ensures { OnOk result
        (map term_in out.new.items ≡ map term_in out.old.items ++ term_unless_zero (monomial_in mono) (first.now +ℤ second.now)) }
{
    let sum = *first + *second;
    if sum == 0 {
        return Ok(());
    }
    push_term(out, mono, &sum)
}

// Moves the first terms of two lists behind other terms, joined to one.
fn join_firsts(
    out: &mut Vec<(MonoTree, i128)>,
    left: &mut VecDeque<(MonoTree, i128)>,
    right: &mut VecDeque<(MonoTree, i128)>,
) -> Result<(), NoMemory>
    requires left { 0 < length left.old.items }
    requires right { 0 < length right.old.items }
    requires narrow { weight_of (polynomial_of (map term_in left.old.items))
        + weight_of (polynomial_of (map term_in right.old.items)) ≤ weight_limit }
    ensures joined { OnOk result
        (map term_in out.new.items ≡ map term_in out.old.items
        ++ joined_firsts (polynomial_of (map term_in left.old.items)) (polynomial_of (map term_in right.old.items))) }
    ensures left { left.new.items ≡ drop 1 left.old.items }
    ensures right { right.new.items ≡ drop 1 right.old.items }
{
    let Some((mono, first)) = left.pop_front() else {
        return Ok(());
    };
    let Some((_mono, second)) = right.pop_front() else {
        return Ok(());
    };
    push_sum(out, mono, &first, &second)
}

/// The sum of two ordered lists of terms, whose weights together are within the limit.
pub fn merged_owned(
    alloc: Global,
    l: Vec<(MonoTree, i128)>,
    r: Vec<(MonoTree, i128)>,
) -> Result<Vec<(MonoTree, i128)>, NoMemory>
    requires left { IsTrue (ordered (polynomial_of (map term_in l.items))) }
    requires right { IsTrue (ordered (polynomial_of (map term_in r.items))) }
    requires narrow { weight_of (polynomial_of (map term_in l.items)) + weight_of (polynomial_of (map term_in r.items))
        ≤ weight_limit }
    ensures { IfOk result
        (λ v. IsOrderedSum (polynomial_of (map term_in l.items)) (polynomial_of (map term_in r.items))
        (polynomial_of (map term_in v.items))) }
{
    let mut left = VecDeque::from(l);
    let mut right = VecDeque::from(r);
    let mut out = Vec::new(alloc);
    'merge: while let Some(order) = order_of_firsts(&left, &right) {
        match order {
            Ordering::Less => move_first(&mut out, &mut left)?,
            Ordering::Greater => move_first(&mut out, &mut right)?,
            Ordering::Equal => join_firsts(&mut out, &mut left, &mut right)?,
        }
    }
    Ok(out)
}
