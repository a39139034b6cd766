//! What a list of literals leaves of a direction.

ghost use Rattle.std.specs.Prelude.{◌≡◌, ◌↔◌, ◌≤ℤ◌, ◌&&◌, IsTrue, ℤ, false, map, ◌∷◌};
ghost use Rattle.std.specs.Option.{option_copied};
ghost use Rattle.nf_rel.specs.Literals.{Is, meets, meets_along, meets_all, negate, is_refuted_along};
ghost use Rattle.nf_rel.specs.Bounds.{lower_of, upper_of, lower_along, upper_along, greater, less, greatest_lower, least_upper};
ghost use Rattle.nf_rel.specs.View.{literal_in};

use crate::kind::Kind;
use crate::literals::{Bound, NLit};
use nf_terms::poly::Poly;

// Whether a number meets a bound.
fn meets(k: Kind, number: &i128, bound: &i128) -> bool
    ensures { result ≡ meets k number.now bound.now }
{
    match k {
        Kind::Ge => *bound <= *number,
        Kind::Le => *number <= *bound,
        Kind::Eq => *number == *bound,
        Kind::Ne => *number != *bound,
    }
}

// Whether a number meets a literal as far as it bounds a direction.
fn meets_along(dir: &Poly, number: &i128, l: &NLit) -> bool
    ensures { result ≡ meets_along dir.now number.now (literal_in l.now) }
{
    match l {
        NLit::True | NLit::False => true,
        NLit::Is(b) => *dir != b.dir || meets(b.kind, number, &b.bound),
    }
}

// Whether a number meets all literals of a direction.
fn meets_all(dir: &Poly, number: &i128, list: &[NLit]) -> bool
    ensures { result ≡ meets_all dir.now number.now (map literal_in list.now) }
{
    for l in list {
        if !meets_along(dir, number, l) {
            return false;
        }
    }
    true
}

// The least number that meets a bound, if there is one.
fn lower_of<'a>(k: Kind, bound: &'a i128) -> Option<&'a i128>
    ensures { option_copied result ≡ lower_of k bound.now }
{
    match k {
        Kind::Ge | Kind::Eq => Some(bound),
        Kind::Le | Kind::Ne => None,
    }
}

// The greatest number that meets a bound, if there is one.
fn upper_of<'a>(k: Kind, bound: &'a i128) -> Option<&'a i128>
    ensures { option_copied result ≡ upper_of k bound.now }
{
    match k {
        Kind::Le | Kind::Eq => Some(bound),
        Kind::Ge | Kind::Ne => None,
    }
}

// The least number that a literal leaves of its direction, if it is this one and there is one.
fn lower_along<'a>(dir: &Poly, l: &'a NLit) -> Option<&'a i128>
    ensures { option_copied result ≡ lower_along dir.now (literal_in l.now) }
{
    match l {
        NLit::True | NLit::False => None,
        NLit::Is(b) => {
            if *dir == b.dir {
                lower_of(b.kind, &b.bound)
            } else {
                None
            }
        }
    }
}

// The greatest number that a literal leaves of its direction, if it is this one and there is one.
fn upper_along<'a>(dir: &Poly, l: &'a NLit) -> Option<&'a i128>
    ensures { option_copied result ≡ upper_along dir.now (literal_in l.now) }
{
    match l {
        NLit::True | NLit::False => None,
        NLit::Is(b) => {
            if *dir == b.dir {
                upper_of(b.kind, &b.bound)
            } else {
                None
            }
        }
    }
}

// The greater of two numbers, or the one that is there.
fn greater<'a>(a: Option<&'a i128>, b: Option<&'a i128>) -> Option<&'a i128>
    ensures { option_copied result ≡ greater (option_copied a.entry) (option_copied b.entry) }
{
    match a {
        None => b,
        Some(first) => match b {
            None => a,
            Some(second) => { if *first < *second { b } else { a } }
        },
    }
}

// The less of two numbers, or the one that is there.
fn less<'a>(a: Option<&'a i128>, b: Option<&'a i128>) -> Option<&'a i128>
    ensures { option_copied result ≡ less (option_copied a.entry) (option_copied b.entry) }
{
    match a {
        None => b,
        Some(first) => match b {
            None => a,
            Some(second) => { if *second < *first { b } else { a } }
        },
    }
}

// The greatest lower bound of a direction, beside one that is known.
fn greatest_lower<'a>(dir: &Poly, known: Option<&'a i128>, list: &'a [NLit]) -> Option<&'a i128>
    ensures { option_copied result ≡ greatest_lower dir.now (option_copied known.entry) (map literal_in list.now) }
{
    let mut greatest = known;
    for l in list {
        greatest = greater(greatest, lower_along(dir, l));
    }
    greatest
}

// The least upper bound of a direction, beside one that is known.
fn least_upper<'a>(dir: &Poly, known: Option<&'a i128>, list: &'a [NLit]) -> Option<&'a i128>
    ensures { option_copied result ≡ least_upper dir.now (option_copied known.entry) (map literal_in list.now) }
{
    let mut least = known;
    for l in list {
        least = less(least, upper_along(dir, l));
    }
    least
}

// Whether a number meets a bound of a direction and all literals of it.
fn meets_beside(dir: &Poly, k: Kind, bound: &i128, list: &[NLit], number: &i128) -> bool
    ensures { result ≡ meets k number.now bound.now && meets_all dir.now number.now (map literal_in list.now) }
{
    meets(k, number, bound) && meets_all(dir, number, list)
}

// Whether no number from one to another meets a bound of a direction and all literals of it.
fn none_between(dir: &Poly, k: Kind, bound: &i128, list: &[NLit], low: &i128, high: &i128) -> bool
    ensures { IsTrue result
        ↔ ((v : ℤ) → low.now ≤ℤ v → v ≤ℤ high.now → meets k v bound.now
        && meets_all dir.now v (map literal_in list.now) ≡ false) }
{
    if *high < *low {
        return true;
    }
    let mut number = *low;
    while number < *high {
        if meets_beside(dir, k, bound, list, &number) {
            return false;
        }
        number += 1;
    }
    !meets_beside(dir, k, bound, list, high)
}

// Whether no integer meets a bound of a direction and all literals of it.
fn refuted_beside<'a>(list: &'a [NLit], dir: &Poly, k: Kind, bound: &'a i128) -> bool
    ensures { result ≡ is_refuted_along dir.now (Is dir.now k bound.now ∷ map literal_in list.now) }
{
    match greatest_lower(dir, lower_of(k, bound), list) {
        None => false,
        Some(low) => match least_upper(dir, upper_of(k, bound), list) {
            None => false,
            Some(high) => none_between(dir, k, bound, list, low, high),
        },
    }
}

/// Whether no integer meets the literals of a bound's direction but not the bound.
pub(crate) fn negation_refuted(list: &[NLit], b: &Bound) -> bool
    ensures { result ≡ is_refuted_along b.now.dir (negate (literal_in (NLit.Is b.now)) ∷ map literal_in list.now) }
{
    match b.kind {
        Kind::Ge => refuted_beside(list, &b.dir, Kind::Le, &(b.bound - 1)),
        Kind::Le => refuted_beside(list, &b.dir, Kind::Ge, &(b.bound + 1)),
        Kind::Eq => refuted_beside(list, &b.dir, Kind::Ne, &b.bound),
        Kind::Ne => refuted_beside(list, &b.dir, Kind::Eq, &b.bound),
    }
}
