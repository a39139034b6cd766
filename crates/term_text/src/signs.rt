//! The signs between the parts of a term.

ghost use Rattle.std.specs.Prelude.{◌≡◌, ◌==◌, ◌||◌, ◌<◌, ℕ, Option, length, option_map, IfOk, IfSome};
ghost use Rattle.fs_model.specs.Words.{is_digit};
ghost use Rattle.term_text.specs.Machine.{Owed, ForPolynomial, term_reading, begins, rest_after, Goes, IsNoArray};
ghost use Rattle.term_text.specs.Machine.{at_monomial, at_sign, after_polynomial, monomial_of_sum};
ghost use Rattle.term_text.specs.TermTexts.{Sum, Polynomial, TermSyntax};
ghost use Rattle.term_text.specs.AtomStarts.{Closes};
ghost use Rattle.term_text.specs.View.{written_polynomial_in};

use crate::fault::ReadError;
use crate::scan::expect;
use crate::tree::WrittenPolynomial;
use fs_model::name::is_digit;

/// Takes the byte that ends a polynomial, behind the polynomial that was read.
pub(crate) fn close<'a>(
    read: Result<(WrittenPolynomial<'a>, &'a [u8]), ReadError>,
    closing: u8,
) -> Result<(WrittenPolynomial<'a>, &'a [u8]), ReadError>
    ensures goes { (text : Option TermSyntax) (k : ForPolynomial) (done : Polynomial → Owed) → Closes closing k done
        → Goes read.entry text (λ x. term_reading x.1.now (after_polynomial (written_polynomial_in x.0) k))
        → Goes result text (λ x. term_reading x.1.now (done (written_polynomial_in x.0))) }
    ensures shorter { (n : ℕ) → IfOk read.entry (λ x. length x.1.now < n) → IfOk result (λ x. length x.1.now < n) }
{
    match read {
        Ok((made, rest)) => match expect(rest, closing) {
            Ok(rest) => Ok((made, rest)),
            Err(error) => Err(error),
        },
        Err(error) => Err(error),
    }
}

/// What stands behind a byte, where that is the first.
#[inline(always)]
pub fn rest_after(bytes: &[u8], byte: u8) -> Option<&[u8]>
    ensures rest { option_map (λ r. r.now) result ≡ rest_after byte bytes.now }
    ensures shorter { IfSome result (λ r. length r.now < length bytes.now) }
{
    match bytes {
        [] => None,
        [first, rest @ ..] => if *first == byte { Some(rest) } else { None },
    }
}

/// Takes `+ ` or `- `: whether it is the latter.
pub(crate) fn sign(bytes: &[u8]) -> Result<(bool, &[u8]), ReadError>
    ensures goes { (s : Sum) (k : ForPolynomial)
        → Goes result (term_reading bytes.now (at_sign s k)) (λ x. term_reading x.1.now (at_monomial (monomial_of_sum x.0 s k))) }
    ensures shorter { IfOk result (λ x. length x.1.now < length bytes.now) }
{
    match bytes {
        [] => Err(ReadError::BadTerm),
        [first, rest @ ..] => {
            let rest = expect(rest, b' ')?;
            match *first {
                b'+' => Ok((false, rest)),
                b'-' => Ok((true, rest)),
                _ => Err(ReadError::BadTerm),
            }
        }
    }
}

/// Whether a write or a read follows.
pub(crate) fn goes_on_as_array(bytes: &[u8]) -> bool
    ensures { IsNoArray bytes.now result }
{
    match bytes {
        [] => false,
        [first, ..] => *first == b'{' || *first == b'[',
    }
}

/// Whether a digit follows.
pub(crate) fn begins_with_digit(bytes: &[u8]) -> bool
    ensures { result ≡ begins is_digit bytes.now }
{
    match bytes {
        [] => false,
        [first, ..] => is_digit(*first),
    }
}

/// Whether `0` or `-` follows.
pub fn begins_with_zero_or_minus(bytes: &[u8]) -> bool
    ensures { result ≡ begins (λ b. b == 48 || b == 45) bytes.now }
{
    match bytes {
        [] => false,
        [first, ..] => *first == b'0' || *first == b'-',
    }
}
