//! Reading a sum monomial by monomial, so that none need be kept.

ghost use Rattle.std.specs.Prelude.{◌≡◌, ◌==◌, ◌<◌, false, length, IfOk};
ghost use Rattle.term_text.specs.Machine.{ForPolynomial, Goes, begins, term_reading, at_polynomial, at_monomial, at_sign};
ghost use Rattle.term_text.specs.Machine.{after_sum, first_monomial_for};
ghost use Rattle.term_text.specs.TermTexts.{Sum};
ghost use Rattle.term_text.specs.View.{written_monomial_in, first_sum, more_sum};

use std::alloc::Global;
use term_text::fault::ReadError;
use term_text::signs::begins_with_zero_or_minus;
use term_text::terms::{further, monomial};
use term_text::tree::WrittenMonomial;

// The first monomial of a sum, after its sign.
#[tactic(auto, using(term_text::proofs::Steps::first_monomial))]
fn after_sign<'a>(
    alloc: Global,
    minus: bool,
    bytes: &'a [u8],
) -> Result<(bool, WrittenMonomial<'a>, &'a [u8]), ReadError>
    ensures goes { (k : ForPolynomial) → Goes result (term_reading bytes.now (at_monomial (first_monomial_for minus k)))
        (λ x. term_reading x.2.now (after_sum (first_sum (x.0, written_monomial_in x.1)) k)) }
    ensures shorter { IfOk result (λ x. length x.2.now < length bytes.now) }
{
    let (first, rest) = monomial(alloc, bytes)?;
    Ok((minus, first, rest))
}

/// The first monomial of a polynomial that does not begin with `0`, whether it is taken away, and what follows it.
///
/// `BadTerm` comes only where no polynomial begins so: no monomial stands there. `NoMemory` may come at any time.
#[tactic(auto, using(term_text::proofs::Steps::polynomial_starts))]
pub fn first_term<'a>(
    alloc: Global,
    bytes: &'a [u8],
) -> Result<(bool, WrittenMonomial<'a>, &'a [u8]), ReadError>
    requires { begins (λ b. b == 48) bytes.now ≡ false }
    ensures goes { (k : ForPolynomial) → Goes result (term_reading bytes.now (at_polynomial k))
        (λ x. term_reading x.2.now (after_sum (first_sum (x.0, written_monomial_in x.1)) k)) }
    ensures shorter { IfOk result (λ x. length x.2.now < length bytes.now) }
{
    if !begins_with_zero_or_minus(bytes) {
        return after_sign(alloc, false, bytes);
    }
    match bytes {
        [b'-', rest @ ..] => after_sign(alloc, true, rest),
        _ => Err(ReadError::BadTerm),
    }
}

/// A monomial that is not the first of a sum, from its sign on: whether it is taken away, and what follows it.
///
/// `BadTerm` comes only where no sum goes on so: no sign with a monomial stands there. `NoMemory` may come at any time.
#[inline(always)]
pub fn next_term<'a>(
    alloc: Global,
    bytes: &'a [u8],
) -> Result<(bool, WrittenMonomial<'a>, &'a [u8]), ReadError>
    ensures goes { (s : Sum) (k : ForPolynomial)
        → Goes result (term_reading bytes.now (at_sign s k))
        (λ x. term_reading x.2.now (after_sum (more_sum s (x.0, written_monomial_in x.1)) k)) }
    ensures shorter { IfOk result (λ x. length x.2.now < length bytes.now) }
{
    further(alloc, bytes)
}
