//! Quotients and remainders.

ghost use Rattle.std.specs.Prelude.{◌≡◌, ◌^◌, ◌<◌, ◌&&◌, true, false, unsigned_abs, MatchOption};
ghost use Rattle.base_laws.specs.Division.{quotient as quotient_in, remainder as remainder_in};
ghost use Rattle.nf_trees.specs.NormalTerms.{Quotient, Remainder, polynomial_of_number};
ghost use Rattle.nf_terms.specs.Normal.{is_constant};
ghost use Rattle.nf_terms.specs.Computed.{Answers, Done};
ghost use Rattle.nf_terms.specs.Normal.{constant_sum};
ghost use Rattle.nf_arrays.specs.NewAtoms.{new_atom as new_atom_of, quotient_of, remainder_of};

use crate::atoms::new_atom;
use crate::copies::copy_both;
use base_laws::{quotient, remainder};
use nf_sums::sums::constant_of;
use nf_terms::atoms::{make_quotient, make_remainder};
use nf_terms::poly::Poly;
use nf_terms::stop::NfStop;
use std::alloc::Global;

// The number that a polynomial is, which is not the least `i128`.
fn number_of(p: &Poly) -> Option<i128>
    ensures constant { MatchOption result (is_constant p.now ≡ false) (λ c. is_constant p.now ≡ true) }
    ensures number { MatchOption result (is_constant p.now ≡ false) (λ c. c ≡ constant_sum p.now) }
    ensures small { MatchOption result (is_constant p.now ≡ false) (λ c. unsigned_abs c < 2 ^ 127) }
{
    let _size = p.size(); // The call tells the proof that the form is normal.
    constant_of(p)
}

// The quotient of two numbers.
fn folded_quotient(alloc: Global, c: &i128, d: &i128) -> Result<Poly, NfStop>
    requires { unsigned_abs c.now < 2 ^ 127 }
    ensures { Answers result (Done (polynomial_of_number (quotient_in c.now d.now))) }
{
    match quotient(*c, *d) {
        Some(folded) => Ok(Poly::number(alloc, folded)?),
        None => unreachable!(),
    }
}

// The quotient of two polynomials that are not both numbers.
fn new_quotient(alloc: Global, l: &Poly, r: &Poly) -> Result<Poly, NfStop>
    requires { is_constant l.now && is_constant r.now ≡ false }
    ensures { Answers result (new_atom_of (Quotient l.now r.now)) }
{
    let (left, right) = copy_both(alloc, l.tree(), r.tree())?;
    let atom = make_quotient(alloc, left, right)?;
    new_atom(alloc, atom)
}

/// The quotient, truncated toward zero, and 0 for the divisor 0. Of two numbers it is a number, else an atom of its own.
///
/// `Large` comes exactly where the new atom is past a limit: where 2 and both sizes are past 4,096, which is carried with
/// depth 0, or else where the depth is past 64. `Wide` never comes. `NoMemory` comes when memory runs out.
pub fn div(alloc: Global, l: &Poly, r: &Poly) -> Result<Poly, NfStop>
    ensures { Answers result (quotient_of l.now r.now) }
{
    if let Some(c) = number_of(l) {
        if let Some(d) = number_of(r) {
            return folded_quotient(alloc, &c, &d);
        }
    }
    new_quotient(alloc, l, r)
}

// The remainder of two numbers.
fn folded_remainder(alloc: Global, c: &i128, d: &i128) -> Result<Poly, NfStop>
    requires { unsigned_abs c.now < 2 ^ 127 }
    ensures { Answers result (Done (polynomial_of_number (remainder_in c.now d.now))) }
{
    Ok(Poly::number(alloc, remainder(*c, *d))?)
}

// The remainder of two polynomials that are not both numbers.
fn new_remainder(alloc: Global, l: &Poly, r: &Poly) -> Result<Poly, NfStop>
    requires { is_constant l.now && is_constant r.now ≡ false }
    ensures { Answers result (new_atom_of (Remainder l.now r.now)) }
{
    let (left, right) = copy_both(alloc, l.tree(), r.tree())?;
    let atom = make_remainder(alloc, left, right)?;
    new_atom(alloc, atom)
}

/// What the quotient leaves: it has the sign of the dividend, and is 0 for the divisor 0. Of two numbers it is a number, else
/// an atom of its own.
///
/// `Large` comes exactly where it comes for the quotient, `Wide` never, and `NoMemory` when memory runs out.
pub fn rem(alloc: Global, l: &Poly, r: &Poly) -> Result<Poly, NfStop>
    ensures { Answers result (remainder_of l.now r.now) }
{
    if let Some(c) = number_of(l) {
        if let Some(d) = number_of(r) {
            return folded_remainder(alloc, &c, &d);
        }
    }
    new_remainder(alloc, l, r)
}
