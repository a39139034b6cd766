//! Which literals are in normal form.

ghost use Rattle.std.specs.Prelude.{◌≡◌};
ghost use Rattle.nf_rel.specs.NormalLiterals.{is_normal, is_inner_number, is_normal_literal};
ghost use Rattle.nf_rel.specs.View.{literal_in};
ghost use Rattle.std.specs.Prelude.{true};

use crate::literals::NLit;
use crate::primitive::is_primitive;
use nf_terms::poly::Poly;

/// The greatest bound of a literal in normal form, and the least one without its sign: 2^127 - 2.
const BOUND_LIMIT: i128 = i128::MAX - 1;

/// Whether a number lies between -(2^127 - 2) and 2^127 - 2.
pub fn is_inner(bound: &i128) -> bool
    ensures { result ≡ is_inner_number bound.now }
{
    -BOUND_LIMIT <= *bound && *bound <= BOUND_LIMIT
}

// A polynomial is normal.
#[tactic(auto, using(crate::proofs::NormalForms::normal_is))]
fn see_normal(p: &Poly)
    ensures { is_normal p.now ≡ true }
{
    let _ = p.size(); // The call tells the proof that the polynomial is normal.
}

/// Whether a literal is in normal form: it is true or false; or its direction has no constant part, no common divisor of
/// the coefficients but 1 and a positive first coefficient, and its bound lies between -(2^127 - 2) and 2^127 - 2.
pub fn is_normal(l: &NLit) -> bool
    ensures { result ≡ is_normal_literal (literal_in l.now) }
{
    match l {
        NLit::True | NLit::False => true,
        NLit::Is(b) => {
            see_normal(&b.dir);
            is_inner(&b.bound) && is_primitive(&b.dir)
        }
    }
}
