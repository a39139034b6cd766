//! Sums that grow.

ghost use Rattle.std.specs.Prelude.{◌≡◌, ◌+◌, ◌^◌, ◌≤◌, ◌<◌, ◌+ℤ◌, pos, true, map, take, drop, length, unsigned_abs, OnOk};
ghost use Rattle.std.specs.Prelude.{IsTrue};
ghost use Rattle.std.specs.Ordering.{int_eq};
ghost use Rattle.nf_trees.specs.NormalTerms.{Zero, Plus, polynomial_of};
ghost use Rattle.nf_trees.specs.View.{monomial_in, term_in};
ghost use Rattle.nf_trees.specs.Measures.{size_of, size_of_monomial, weight_of};
ghost use Rattle.nf_terms.specs.TermLimits.{weight_limit, size_limit};
ghost use Rattle.nf_terms.specs.Normal.{IsNormal, ordered};
ghost use Rattle.nf_terms.specs.RawSums.{raw_sum};
ghost use Rattle.nf_terms.specs.Computed.{Answers};
ghost use Rattle.nf_sums.specs.Operations.{normal_sum};
ghost use Rattle.nf_sums.specs.RawSumForms.{with_term, with_terms};
ghost use Rattle.nf_sums.specs.Accumulators.{stand_before, begins_behind, begins_with, coefficient_of, with_first, with_more};
ghost use Rattle.nf_sums.specs.Accumulators.{IsMeasured};

use crate::limits::check_limits;
use nf_terms::measures::size_of_mono;
use nf_terms::order::compare_monos;
use nf_terms::poly::Poly;
use nf_terms::stop::{NfStop, NoMemory};
use nf_trees::tree::{MonoTree, PolyTree};
use std::alloc::Global;
use std::marker::Model;

// How many of the terms stand before a monomial: they are halved until the place is found.
fn place_of(terms: &[(MonoTree, i128)], mono: &MonoTree) -> usize
    requires { IsTrue (ordered (polynomial_of (map term_in terms.now))) }
    ensures within { result ≤ length terms.now }
    ensures before { stand_before (monomial_in mono.now) (polynomial_of (map term_in (take result terms.now))) ≡ true }
    ensures behind { begins_behind (monomial_in mono.now) (polynomial_of (map term_in (drop result terms.now))) ≡ true }
{
    let mut low = 0;
    let mut high = terms.len();
    while low < high {
        let middle = low + (high - low) / 2;
        let (other, _coefficient) = &terms[middle];
        if compare_monos(other, mono).is_lt() {
            low = middle + 1;
        } else {
            high = middle;
        }
    }
    low
}

// Whether a monomial stands at a place.
fn stands_at(terms: &[(MonoTree, i128)], place: usize, mono: &MonoTree) -> bool
    ensures { result ≡ begins_with (monomial_in mono.now) (polynomial_of (map term_in (drop place terms.now))) }
{
    match terms.get(place) {
        Some((other, _coefficient)) => compare_monos(mono, other).is_eq(),
        None => false,
    }
}

// The weight of a term.
fn weight_of_term(coefficient: &i128) -> u128
    ensures same { result ≡ unsigned_abs coefficient.now }
    ensures bound { result ≤ 2 ^ 127 }
{
    coefficient.unsigned_abs()
}

// Terms with their size and their weight.
#[derive(Drop)]
struct Measured {
    terms: Vec<(MonoTree, i128)>,
    size: u64,
    weight: u128,
}

// A term put at a place.
#[tactic(auto, using(crate::proofs::Placed::terms_joined))]
fn insert_term(
    terms: &mut Vec<(MonoTree, i128)>,
    place: usize,
    mono: MonoTree,
    coefficient: &i128,
) -> Result<(), NoMemory>
    requires { place ≤ length terms.old.items }
    ensures { OnOk result
        (polynomial_of (map term_in terms.new.items) ≡ raw_sum (polynomial_of (map term_in (take place terms.old.items)))
        (Plus (monomial_in mono) coefficient.now (polynomial_of (map term_in (drop place terms.old.items))))) }
{
    terms.insert(place, (mono, *coefficient))?;
    Ok(())
}

// A copy of a term put at a place.
fn put_at(
    alloc: Global,
    sum: &mut Measured,
    place: usize,
    mono: &MonoTree,
    coefficient: &i128,
) -> Result<(), NoMemory>
    requires within { place ≤ length sum.old.terms.items }
    requires small { sum.old.size + (1 + size_of_monomial (monomial_in mono.now)) ≤ size_limit }
    requires narrow { sum.old.weight + unsigned_abs coefficient.now ≤ weight_limit }
    ensures sum { OnOk result
        (polynomial_of (map term_in sum.new.terms.items) ≡ raw_sum (polynomial_of (map term_in (take place sum.old.terms.items)))
        (Plus (monomial_in mono.now) coefficient.now (polynomial_of (map term_in (drop place sum.old.terms.items))))) }
    ensures size { OnOk result (sum.new.size ≡ sum.old.size + (1 + size_of_monomial (monomial_in mono.now))) }
    ensures weight { OnOk result (sum.new.weight ≡ sum.old.weight + unsigned_abs coefficient.now) }
{
    let copy = mono.try_clone(alloc)?;
    insert_term(&mut sum.terms, place, copy, coefficient)?;
    sum.size += 1 + size_of_mono(mono);
    sum.weight += weight_of_term(coefficient);
    Ok(())
}

// Two coefficients together.
fn together(first: &i128, second: &i128) -> i128
    requires { unsigned_abs first.now + unsigned_abs second.now ≤ weight_limit }
    ensures { result ≡ first.now +ℤ second.now }
{
    *first + *second
}

// The coefficient at a place and another together.
fn total_at(terms: &[(MonoTree, i128)], place: usize, more: &i128) -> i128
    requires within { place < length terms.now }
    requires narrow { weight_of (polynomial_of (map term_in terms.now)) + unsigned_abs more.now ≤ weight_limit }
    ensures { result ≡ more.now +ℤ coefficient_of (polynomial_of (map term_in (drop place terms.now))) }
{
    let (_mono, coefficient) = &terms[place];
    together(more, coefficient)
}

// Whether a number is 0.
fn is_zero(number: &i128) -> bool
    ensures { result ≡ int_eq number.now (pos 0) }
{
    *number == 0
}

// A coefficient in place of the one at a place; the monomial goes where it is 0.
fn replace_at(terms: &mut Vec<(MonoTree, i128)>, place: usize, total: &i128)
    requires { place < length terms.old.items }
    ensures { polynomial_of (map term_in terms.new.items) ≡ raw_sum (polynomial_of (map term_in (take place terms.old.items)))
        (with_first total.now (polynomial_of (map term_in (drop place terms.old.items)))) }
{
    if is_zero(total) {
        terms.remove(place);
    } else {
        terms[place].1 = *total;
    }
}

// The size of a sum where the term at a place gets another coefficient.
#[tactic(auto, using(crate::proofs::Placed::terms_at))]
fn size_with(terms: &[(MonoTree, i128)], place: usize, coefficient: &i128, size: u64) -> u64
    requires within { place < length terms.now }
    requires measured { size ≡ size_of (polynomial_of (map term_in terms.now)) }
    requires small { size ≤ size_limit }
    ensures { result ≡ size_of
        (raw_sum (polynomial_of (map term_in (take place terms.now)))
        (with_first coefficient.now (polynomial_of (map term_in (drop place terms.now))))) }
{
    if !is_zero(coefficient) {
        return size;
    }
    let (mono, _coefficient) = &terms[place];
    size - (1 + size_of_mono(mono))
}

// The weight of a sum where the term at a place gets another coefficient.
#[tactic(auto, using(crate::proofs::Placed::terms_at))]
fn weight_with(terms: &[(MonoTree, i128)], place: usize, coefficient: &i128, weight: u128) -> u128
    requires within { place < length terms.now }
    requires measured { weight ≡ weight_of (polynomial_of (map term_in terms.now)) }
    requires narrow { weight ≤ weight_limit }
    ensures { result ≡ weight_of
        (raw_sum (polynomial_of (map term_in (take place terms.now)))
        (with_first coefficient.now (polynomial_of (map term_in (drop place terms.now))))) }
{
    let (_mono, old) = &terms[place];
    weight - weight_of_term(old) + weight_of_term(coefficient)
}

// A coefficient more for the term at a place.
fn add_at(sum: &mut Measured, place: usize, more: &i128)
    requires within { place < length sum.old.terms.items }
    requires measured { IsMeasured (polynomial_of (map term_in sum.old.terms.items)) sum.old.size sum.old.weight }
    requires narrow { sum.old.weight + unsigned_abs more.now ≤ weight_limit }
    ensures sum { polynomial_of (map term_in sum.new.terms.items)
        ≡ raw_sum (polynomial_of (map term_in (take place sum.old.terms.items)))
        (with_more more.now (polynomial_of (map term_in (drop place sum.old.terms.items)))) }
    ensures size { sum.new.size ≡ size_of (polynomial_of (map term_in sum.new.terms.items)) }
    ensures weight { sum.new.weight ≡ weight_of (polynomial_of (map term_in sum.new.terms.items)) }
{
    let total = total_at(&sum.terms, place, more);
    sum.size = size_with(&sum.terms, place, &total, sum.size);
    sum.weight = weight_with(&sum.terms, place, &total, sum.weight);
    replace_at(&mut sum.terms, place, &total);
}

// A normal sum and one monomial more.
fn add_term(
    alloc: Global,
    sum: &mut Measured,
    mono: &MonoTree,
    coefficient: &i128,
) -> Result<(), NoMemory>
    requires measured { IsMeasured (polynomial_of (map term_in sum.old.terms.items)) sum.old.size sum.old.weight }
    requires term { IsNormal (Plus (monomial_in mono.now) coefficient.now Zero) }
    requires small { sum.old.size + (1 + size_of_monomial (monomial_in mono.now)) ≤ size_limit }
    requires narrow { sum.old.weight + unsigned_abs coefficient.now ≤ weight_limit }
    ensures sum { OnOk result
        (polynomial_of (map term_in sum.new.terms.items) ≡ with_term (monomial_in mono.now) coefficient.now
        (polynomial_of (map term_in sum.old.terms.items))) }
    ensures measured { OnOk result (IsMeasured (polynomial_of (map term_in sum.new.terms.items)) sum.new.size sum.new.weight) }
{
    let place = place_of(&sum.terms, mono);
    if !stands_at(&sum.terms, place, mono) {
        put_at(alloc, sum, place, mono, coefficient)?;
        return Ok(());
    }
    add_at(sum, place, coefficient);
    Ok(())
}

// A normal sum and some monomials more, each put in its place.
fn add_all(alloc: Global, sum: &mut Measured, terms: &[(MonoTree, i128)]) -> Result<(), NoMemory>
    requires measured { IsMeasured (polynomial_of (map term_in sum.old.terms.items)) sum.old.size sum.old.weight }
    requires terms { IsNormal (polynomial_of (map term_in terms.now)) }
    requires small { sum.old.size + size_of (polynomial_of (map term_in terms.now)) ≤ size_limit }
    requires narrow { sum.old.weight + weight_of (polynomial_of (map term_in terms.now)) ≤ weight_limit }
    ensures sum { OnOk result
        (polynomial_of (map term_in sum.new.terms.items) ≡ with_terms (polynomial_of (map term_in sum.old.terms.items))
        (polynomial_of (map term_in terms.now))) }
    ensures measured { OnOk result (IsMeasured (polynomial_of (map term_in sum.new.terms.items)) sum.new.size sum.new.weight) }
{
    for (mono, coefficient) in terms {
        add_term(alloc, sum, mono, coefficient)?;
    }
    Ok(())
}

/// A normal polynomial that grows: each monomial more is put in its place, and the others are left alone.
#[derive(Drop)]
pub struct Accumulator {
    sum: Measured,
}

impl Model for Accumulator {
    ghost use Rattle.std.specs.Prelude.{map};
    ghost use Rattle.nf_trees.specs.NormalTerms.{Polynomial, polynomial_of};
    ghost use Rattle.nf_terms.specs.Codes.{coded_polynomial};
    ghost use Rattle.nf_trees.specs.View.{term_in};
    ghost use Rattle.nf_sums.specs.Accumulators.{IsMeasured};

    ghost Value = { Polynomial };

    ghost coded = { coded_polynomial };

    ghost view = { λ a. polynomial_of (map term_in a.sum.terms.items) };

    ghost invariant = { λ a. IsMeasured (polynomial_of (map term_in a.sum.terms.items)) a.sum.size a.sum.weight };
}

impl Accumulator {
    /// The sum of nothing, which is 0. It takes no memory.
    #[tactic(auto, using(nf_terms::proofs::Simple::simple))]
    pub fn new(alloc: Global) -> Accumulator
        ensures { result ≡ Zero }
    {
        Accumulator {
            sum: Measured {
                terms: Vec::new(alloc),
                size: 0,
                weight: 0,
            },
        }
    }

    /// The polynomial.
    pub fn into_poly(self) -> Poly
        ensures { result ≡ self }
    {
        Poly::from_normal(PolyTree {
            monos: self.sum.terms,
        })
    }

    // The sum with a polynomial, where it is narrow and small.
    fn add_terms(self, alloc: Global, p: &Poly) -> Result<Accumulator, NfStop>
        requires narrow { weight_of self + weight_of p.now ≤ weight_limit }
        requires small { size_of self + size_of p.now ≤ size_limit }
        ensures { Answers result (normal_sum self p.now) }
    {
        let mut sum = self.sum;
        add_all(alloc, &mut sum, p.monos())?;
        Ok(Accumulator { sum })
    }

    /// The sum with one polynomial more: the normal form of the one raw sum after the other.
    ///
    /// `Wide` comes exactly where the sum of the weights is past 2^127 - 1, and carries the two weights.
    /// `Large` comes exactly where it is not and the sum of the sizes is past 4,096, and carries that sum, with depth 0.
    /// `NoMemory` comes where memory is refused.
    pub fn add(self, alloc: Global, p: &Poly) -> Result<Accumulator, NfStop>
        ensures { Answers result (normal_sum self p.now) }
    {
        let left = self.sum.weight;
        let right = p.weight();
        check_limits(left, right, left + right, self.sum.size + p.size())?;
        self.add_terms(alloc, p)
    }
}
