//! What an atom begins with.

ghost use Rattle.std.specs.Prelude.{◌≡◌, ◌<◌, length, IfOk};
ghost use Rattle.term_text.specs.Machine.{ForAtom, in_atom, term_reading, Goes, expect, at_atom, at_symbol};
ghost use Rattle.term_text.specs.AtomStarts.{MadeFrom, after_start};

use crate::fault::ReadError;
use crate::scan::{expect, expect_three, word};
use crate::signs::goes_on_as_array;
use crate::tree::WrittenBase;
use nf_terms::tree::Side;

/// Which result of a division an atom is.
#[derive(Clone, Copy)]
pub enum DivisionKind {
    Quotient,
    Remainder,
}

/// What an atom begins with: a whole symbol, the base of an array that is read, or a division up to its parenthesis.
#[derive(Clone, Copy)]
pub enum AtomStart<'a> {
    Symbol(Side, &'a [u8]),
    Array(WrittenBase<'a>),
    Division(DivisionKind),
}

// A symbol after the letter of its side, or the array that it is the base of.
#[inline(always)]
fn begin_symbol<'a>(side: Side, bytes: &'a [u8]) -> Result<(AtomStart<'a>, &'a [u8]), ReadError>
    ensures goes { (k : ForAtom) → Goes result (term_reading bytes.now (expect 46 (at_symbol side (in_atom k))))
        (λ x. term_reading x.1.now (after_start x.0 k)) }
    ensures shorter { IfOk result (λ x. length x.1.now < length bytes.now) }
{
    let (name, rest) = word(expect(bytes, b'.')?)?;
    if goes_on_as_array(rest) {
        Ok((AtomStart::Array(WrittenBase::Symbol(side, name)), rest))
    } else {
        Ok((AtomStart::Symbol(side, name), rest))
    }
}

// What an atom begins with, where the rest of its word was there, and what follows that.
#[inline(always)]
fn begin_with<'a>(
    start: AtomStart<'a>,
    rest: Result<&'a [u8], ReadError>,
) -> Result<(AtomStart<'a>, &'a [u8]), ReadError>
    ensures { MadeFrom rest.entry result (λ r x. (x.0 ≡ start.entry) × (x.1.now ≡ r.now)) }
{
    match rest {
        Ok(rest) => Ok((start, rest)),
        Err(error) => Err(error),
    }
}

/// What an atom begins with, and what follows that.
#[inline(always)]
pub(crate) fn begin_atom<'a>(bytes: &'a [u8]) -> Result<(AtomStart<'a>, &'a [u8]), ReadError>
    ensures goes { (k : ForAtom) → Goes result (term_reading bytes.now (at_atom k))
        (λ x. term_reading x.1.now (after_start x.0 k)) }
    ensures shorter { IfOk result (λ x. length x.1.now < length bytes.now) }
{
    match bytes {
        [] => Err(ReadError::BadTerm),
        [first, rest @ ..] => match *first {
            b'L' => begin_symbol(Side::Left, rest),
            b'R' => begin_symbol(Side::Right, rest),
            b'd' => begin_with(
                AtomStart::Division(DivisionKind::Quotient),
                expect_three(rest, b'i', b'v', b'('),
            ),
            b'r' => begin_with(
                AtomStart::Division(DivisionKind::Remainder),
                expect_three(rest, b'e', b'm', b'('),
            ),
            b'z' => begin_with(
                AtomStart::Array(WrittenBase::Zero),
                expect_three(rest, b'e', b'r', b'o'),
            ),
            _ => Err(ReadError::BadTerm),
        },
    }
}
