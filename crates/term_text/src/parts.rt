//! Making the parts of written terms.

ghost use Rattle.std.specs.Prelude.{◌≡◌, ◌++◌, ◌∷◌, []};
ghost use Rattle.term_text.specs.AtomStarts.{MadeFrom, division_of};
ghost use Rattle.term_text.specs.TermTexts.{One, Read};
ghost use Rattle.term_text.specs.View.{written_atom_in, head_in, written_polynomial_in, written_array_in};

use crate::fault::ReadError;
use crate::starts::DivisionKind;
use crate::tree::{WrittenArray, WrittenAtom, WrittenHead, WrittenPolynomial};
use nf_terms::atoms::both_boxed;
use std::alloc::Global;

/// What a monomial begins with, where an atom was read.
#[inline(always)]
pub fn one<'a>(
    first: Result<(WrittenAtom<'a>, &'a [u8]), ReadError>,
) -> Result<(WrittenHead<'a>, &'a [u8]), ReadError>
    ensures { MadeFrom first.entry result
        (λ a h. (head_in h.0 ≡ One (written_atom_in a.0)) × (h.1.now ≡ a.1.now)) }
{
    match first {
        Ok((first, rest)) => Ok((WrittenHead::One(first), rest)),
        Err(error) => Err(error),
    }
}

/// A part, and what was read behind it.
#[inline(always)]
pub fn beside<'a, A: Drop, B: Drop>(
    part: A,
    read: Result<(B, &'a [u8]), ReadError>,
) -> Result<(A, B, &'a [u8]), ReadError>
    ensures { MadeFrom read.entry result (λ b p. (p.0 ≡ part) × (p.1 ≡ b.0) × (p.2.now ≡ b.1.now)) }
{
    match read {
        Ok((next, rest)) => Ok((part, next, rest)),
        Err(error) => Err(error),
    }
}

/// What is read of an array, where its index was read.
pub fn make_read<'a>(
    alloc: Global,
    array: WrittenArray<'a>,
    index: Result<(WrittenPolynomial<'a>, &'a [u8]), ReadError>,
) -> Result<(WrittenAtom<'a>, &'a [u8]), ReadError>
    ensures { MadeFrom index.entry result
        (λ i a. (written_atom_in a.0 ≡ Read (written_array_in array.entry) (written_polynomial_in i.0)) × (a.1.now ≡ i.1.now)) }
{
    match index {
        Ok((index, rest)) => {
            let (array, index) = both_boxed(alloc, array, index)?;
            Ok((WrittenAtom::Read(array, index), rest))
        }
        Err(error) => Err(error),
    }
}

/// A quotient, or a remainder, where its right side was read.
pub fn make_division<'a>(
    alloc: Global,
    kind: DivisionKind,
    left: WrittenPolynomial<'a>,
    right: Result<(WrittenPolynomial<'a>, &'a [u8]), ReadError>,
) -> Result<(WrittenAtom<'a>, &'a [u8]), ReadError>
    ensures { MadeFrom right.entry result
        (λ r a. (written_atom_in a.0 ≡ division_of kind (written_polynomial_in left.entry) (written_polynomial_in r.0))
        × (a.1.now ≡ r.1.now)) }
{
    match right {
        Ok((right, rest)) => {
            let (left, right) = both_boxed(alloc, left, right)?;
            match kind {
                DivisionKind::Quotient => Ok((WrittenAtom::Quotient(left, right), rest)),
                DivisionKind::Remainder => Ok((WrittenAtom::Remainder(left, right), rest)),
            }
        }
        Err(error) => Err(error),
    }
}

/// Adds what was read to a list, and gives what follows it.
pub fn push_read<'a, A: Drop>(
    out: &mut Vec<A>,
    next: Result<(A, &'a [u8]), ReadError>,
) -> Result<&'a [u8], ReadError>
    ensures { MadeFrom next.entry result (λ x rest. (out.new.items ≡ out.old.items ++ x.0 ∷ []) × (rest.now ≡ x.1.now)) }
{
    match next {
        Ok((part, rest)) => {
            out.push(part)?;
            Ok(rest)
        }
        Err(error) => Err(error),
    }
}

/// Adds two parts that were read, one behind the other, to a list, and gives what follows them.
pub fn push_both<'a, A: Drop, B: Drop>(
    out: &mut Vec<(A, B)>,
    next: Result<(A, B, &'a [u8]), ReadError>,
) -> Result<&'a [u8], ReadError>
    ensures { MadeFrom next.entry result (λ x rest. (out.new.items ≡ out.old.items ++ (x.0, x.1) ∷ []) × (rest.now ≡ x.2.now)) }
{
    match next {
        Ok((first, second, rest)) => {
            out.push((first, second))?;
            Ok(rest)
        }
        Err(error) => Err(error),
    }
}
