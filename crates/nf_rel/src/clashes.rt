//! Which literals clash, and what they imply.

ghost use Rattle.std.specs.Prelude.{◌≡◌, map};
ghost use Rattle.std.specs.List.{list_any};
ghost use Rattle.nf_rel.specs.Literals.{negate, clash, is_false, is_implied, bounds_clash};
ghost use Rattle.nf_rel.specs.View.{literal_in};

use crate::intervals::negation_refuted;
use crate::kind::Kind;
use crate::literals::{Bound, NLit};

// The negation of a bound.
fn negate_bound(b: Bound) -> Bound
    ensures { literal_in (NLit.Is result) ≡ negate (literal_in (NLit.Is b)) }
{
    match b.kind {
        Kind::Ge => Bound {
            dir: b.dir,
            kind: Kind::Le,
            bound: b.bound - 1,
        },
        Kind::Le => Bound {
            dir: b.dir,
            kind: Kind::Ge,
            bound: b.bound + 1,
        },
        Kind::Eq => Bound {
            dir: b.dir,
            kind: Kind::Ne,
            bound: b.bound,
        },
        Kind::Ne => Bound {
            dir: b.dir,
            kind: Kind::Eq,
            bound: b.bound,
        },
    }
}

/// The negation.
pub fn negate(l: NLit) -> NLit
    ensures { literal_in result ≡ negate (literal_in l) }
{
    match l {
        NLit::True => NLit::False,
        NLit::False => NLit::True,
        NLit::Is(bound) => NLit::Is(negate_bound(bound)),
    }
}

// Whether no number meets both bounds.
fn bounds_clash(k: Kind, a: &i128, j: Kind, b: &i128) -> bool
    ensures { result ≡ bounds_clash k a.now j b.now }
{
    match k {
        Kind::Ge => match j {
            Kind::Le | Kind::Eq => *b < *a,
            Kind::Ge | Kind::Ne => false,
        },
        Kind::Le => match j {
            Kind::Ge | Kind::Eq => *a < *b,
            Kind::Le | Kind::Ne => false,
        },
        Kind::Eq => match j {
            Kind::Ge => *a < *b,
            Kind::Le => *b < *a,
            Kind::Eq => *a != *b,
            Kind::Ne => *a == *b,
        },
        Kind::Ne => match j {
            Kind::Eq => *a == *b,
            Kind::Ge | Kind::Le | Kind::Ne => false,
        },
    }
}

/// Whether no number meets both literals, or one is false.
pub fn clash(l: &NLit, m: &NLit) -> bool
    ensures { result ≡ clash (literal_in l.now) (literal_in m.now) }
{
    match l {
        NLit::True => match m {
            NLit::False => true,
            NLit::True | NLit::Is(_) => false,
        },
        NLit::False => true,
        NLit::Is(b) => match m {
            NLit::True => false,
            NLit::False => true,
            NLit::Is(c) => bounds_clash(b.kind, &b.bound, c.kind, &c.bound) && b.dir == c.dir,
        },
    }
}

// Whether a list has a False.
fn has_false(list: &[NLit]) -> bool
    ensures { result ≡ list_any is_false (map literal_in list.now) }
{
    for l in list {
        if let NLit::False = l {
            return true;
        }
    }
    false
}

/// Whether a literal is implied by a list: it is True, or the list has a False, or each integer that meets the list's
/// literals of its direction meets it, also where none meets them.
///
/// It takes no memory. A list of n literals is gone through three times, and once more for each number that a `!=` leaves
/// out beside the greatest lower bound of the literal's negation and the list: at most n + 4 times.
pub fn implied(list: &[NLit], l: &NLit) -> bool
    ensures { result ≡ is_implied (map literal_in list.now) (literal_in l.now) }
{
    match l {
        NLit::True => true,
        NLit::False => has_false(list),
        NLit::Is(bound) => has_false(list) || negation_refuted(list, bound),
    }
}
