//! Forms and literals in an order, so that one is found quickly among many.

use nf_rel::kind::Kind;
use nf_rel::literals::{Bound, NLit};
use nf_terms::form::Nf;
use nf_terms::stop::NoMemory;
use std::cmp::Ordering;

// Where a form stands among forms of other sorts.
fn sort_rank(form: &Nf) -> usize {
    match form {
        Nf::Num(_) => 0,
        Nf::Arr(_) => 1,
        Nf::Seq(_) => 2,
    }
}

/// Compares two forms: numbers come first, then arrays, then lists.
pub fn compare_forms(l: &Nf, r: &Nf) -> Ordering {
    match (l, r) {
        (Nf::Num(left), Nf::Num(right)) => left.cmp(right),
        (Nf::Arr(left), Nf::Arr(right)) => left.cmp(right),
        (Nf::Seq(left), Nf::Seq(right)) => left.cmp(right),
        _ => sort_rank(l).cmp(&sort_rank(r)),
    }
}

// Where a relation stands among the others.
fn kind_rank(kind: Kind) -> usize {
    match kind {
        Kind::Ge => 0,
        Kind::Le => 1,
        Kind::Eq => 2,
        Kind::Ne => 3,
    }
}

// Compares two bounds: by their relations, then by their numbers, and their directions last.
fn compare_bounds(l: &Bound, r: &Bound) -> Ordering {
    kind_rank(l.kind)
        .cmp(&kind_rank(r.kind))
        .then(l.bound.cmp(&r.bound))
        .then_with(|| l.dir.cmp(&r.dir))
}

/// Compares two literals: true comes first, then false, then bounds.
pub fn compare_literals(l: &NLit, r: &NLit) -> Ordering {
    match (l, r) {
        (NLit::Is(left), NLit::Is(right)) => compare_bounds(left, right),
        (NLit::True, NLit::True) | (NLit::False, NLit::False) => Ordering::Equal,
        (NLit::True, _) | (_, NLit::Is(_)) => Ordering::Less,
        (_, NLit::True) | (NLit::Is(_), _) => Ordering::Greater,
    }
}

/// Puts a place where it keeps the order. The one refusal is out of memory.
pub fn insert_at(sorted: &mut Vec<usize>, at: usize, place: usize) -> Result<(), NoMemory> {
    let at = at.min(sorted.len());
    Ok(sorted.insert(at, place)?)
}
