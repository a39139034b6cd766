//! Literals in normal form.

ghost use Rattle.std.specs.Prelude.{IsTrue};
ghost use Rattle.nf_rel.specs.Bounds.{in_range};

use crate::kind::Kind;
use nf_terms::poly::Poly;

/// A direction against a bound.
///
/// The bound of `Ge` lies between -(2^127 - 2) and 2^127 - 1, that of `Le` between -(2^127 - 1) and 2^127 - 2, and those of
/// `Eq` and `Ne` between -(2^127 - 2) and 2^127 - 2, so that every negation is a bound too.
#[derive(Drop)]
pub struct Bound {
    pub dir: Poly,
    pub kind: Kind,
    pub bound: i128,
    pub ghost in_range: { IsTrue (in_range kind bound) },
}

/// A literal in normal form: true, false, or a direction against a bound.
#[derive(Drop)]
pub enum NLit {
    True,
    False,
    Is(Bound),
}
