//! The order of trees.

ghost use Rattle.std.specs.Prelude.{◌≡◌};
ghost use Rattle.nf_trees.specs.View.{atom_in, monomial_in, polynomial_in, array_in};
ghost use Rattle.nf_trees.specs.Order.{cmp_side, cmp_pos, cmp_base, cmp_atom, cmp_monomial, cmp_polynomial, cmp_array, same_atom};

use crate::tree::{ArrTree, Atom, Base, MonoTree, PolyTree, Pos, Side};
use std::cmp::Ordering;

/// Compares two sides: left before right.
pub fn compare_sides(l: Side, r: Side) -> Ordering
    ensures { result ≡ cmp_side l r }
{
    match (l, r) {
        (Side::Left, Side::Right) => Ordering::Less,
        (Side::Right, Side::Left) => Ordering::Greater,
        (Side::Left, Side::Left) => Ordering::Equal,
        (Side::Right, Side::Right) => Ordering::Equal,
    }
}

/// Compares two positions: by their sides, then by their numbers.
pub fn compare_pos(l: Pos, r: Pos) -> Ordering
    ensures { result ≡ cmp_pos l r }
{
    compare_sides(l.side, r.side).then(l.var.cmp(&r.var))
}

/// Compares two bases: zero before a symbol.
pub fn compare_bases(l: Base, r: Base) -> Ordering
    ensures { result ≡ cmp_base l r }
{
    match (l, r) {
        (Base::Zero, Base::Zero) => Ordering::Equal,
        (Base::Zero, Base::Sym(_)) => Ordering::Less,
        (Base::Sym(_), Base::Zero) => Ordering::Greater,
        (Base::Sym(p), Base::Sym(q)) => compare_pos(p, q),
    }
}

/// Compares two atoms: by kind, then by their parts.
#[cycle(orders)]
pub fn compare_atoms(l: &Atom, r: &Atom) -> Ordering
    ensures { result ≡ cmp_atom (atom_in l.now) (atom_in r.now) }
{
    match l {
        Atom::Sym(p) => match r {
            Atom::Sym(q) => compare_pos(*p, *q),
            Atom::Read(_, _) | Atom::Div(_, _) | Atom::Rem(_, _) => Ordering::Less,
        },
        Atom::Read(a, i) => match r {
            Atom::Sym(_) => Ordering::Greater,
            Atom::Read(b, j) => compare_arrs(a, b).then(compare_polys(i, j)),
            Atom::Div(_, _) | Atom::Rem(_, _) => Ordering::Less,
        },
        Atom::Div(a, b) => match r {
            Atom::Sym(_) | Atom::Read(_, _) => Ordering::Greater,
            Atom::Div(c, d) => compare_polys(a, c).then(compare_polys(b, d)),
            Atom::Rem(_, _) => Ordering::Less,
        },
        Atom::Rem(a, b) => match r {
            Atom::Sym(_) | Atom::Read(_, _) | Atom::Div(_, _) => Ordering::Greater,
            Atom::Rem(c, d) => compare_polys(a, c).then(compare_polys(b, d)),
        },
    }
}

/// Compares two monomials: the one of more atoms first, then atom by atom.
#[cycle(orders)]
#[tactic(auto, using(crate::proofs::Degrees::degrees))]
pub fn compare_monos(l: &MonoTree, r: &MonoTree) -> Ordering
    ensures { result ≡ cmp_monomial (monomial_in l.now) (monomial_in r.now) }
{
    match r.atoms.len().cmp(&l.atoms.len()) {
        Ordering::Equal => {}
        other => return other,
    }
    for (i, a) in l.atoms.iter().enumerate() {
        let Some(b) = r.atoms.get(i) else {
            return Ordering::Greater;
        };
        match compare_atoms(a, b) {
            Ordering::Equal => {}
            other => return other,
        }
    }
    Ordering::Equal
}

/// Compares two polynomials: as lists of monomials with their coefficients.
#[cycle(orders)]
pub fn compare_polys(l: &PolyTree, r: &PolyTree) -> Ordering
    ensures { result ≡ cmp_polynomial (polynomial_in l.now) (polynomial_in r.now) }
{
    for (i, term) in l.monos.iter().enumerate() {
        let Some(other) = r.monos.get(i) else {
            return Ordering::Greater;
        };
        match compare_monos(&term.0, &other.0).then(term.1.cmp(&other.1)) {
            Ordering::Equal => {}
            decided => return decided,
        }
    }
    match r.monos.get(l.monos.len()) {
        Some(_) => Ordering::Less,
        None => Ordering::Equal,
    }
}

/// Compares two arrays: by their bases, then write by write.
#[cycle(orders)]
pub fn compare_arrs(l: &ArrTree, r: &ArrTree) -> Ordering
    ensures { result ≡ cmp_array (array_in l.now) (array_in r.now) }
{
    match compare_bases(l.base, r.base) {
        Ordering::Equal => {}
        other => return other,
    }
    for (n, write) in l.writes.iter().enumerate() {
        let Some(other) = r.writes.get(n) else {
            return Ordering::Greater;
        };
        match compare_polys(&write.0, &other.0).then(compare_polys(&write.1, &other.1)) {
            Ordering::Equal => {}
            decided => return decided,
        }
    }
    match r.writes.get(l.writes.len()) {
        Some(_) => Ordering::Less,
        None => Ordering::Equal,
    }
}

/// Whether two atoms are the same.
pub fn is_same_atom(l: &Atom, r: &Atom) -> bool
    ensures { result ≡ same_atom (atom_in l.now) (atom_in r.now) }
{
    compare_atoms(l, r).is_eq()
}
