//! Terms, by descent.

ghost use Rattle.std.specs.Prelude.{◌<◌, ◌≤◌, Option, map, length, IfOk};
ghost use Rattle.term_text.specs.Machine.{Owed, ForPolynomial, ForArray, ForMonomial, ForAtom, term_reading, Goes, EndsWrites};
ghost use Rattle.term_text.specs.Machine.{at_polynomial, at_monomial, at_atom, at_sign, item, first_monomial_for, read_of, value};
ghost use Rattle.term_text.specs.Machine.{after_array, after_list, after_monomial, after_sum, after_polynomial, atom_done};
ghost use Rattle.term_text.specs.Machine.{monomial_done};
ghost use Rattle.term_text.specs.AtomStarts.{Closes, left_side, rest_length};
ghost use Rattle.term_text.specs.TermTexts.{Monomial, Sum, Polynomial, ArrayTerm, ListSyntax, TermSyntax, Written, Pushed};
ghost use Rattle.term_text.specs.View.{written_atom_in, head_in, written_monomial_in, written_polynomial_in, written_array_in};
ghost use Rattle.term_text.specs.View.{base_in, times_all, more_sum};

use crate::fault::ReadError;
use crate::parts::{beside, make_division, make_read, one, push_both, push_read};
use crate::scan::{expect, expect_two, number};
use crate::signs::{begins_with_digit, begins_with_zero_or_minus, close, rest_after, sign};
use crate::starts::{AtomStart, DivisionKind, begin_atom};
use crate::tree::{
    WrittenArray, WrittenAtom, WrittenBase, WrittenHead, WrittenMonomial, WrittenPolynomial,
};
use std::alloc::Global;

#[cycle(terms)]
#[inline(always)]
fn atom<'a>(alloc: Global, bytes: &'a [u8]) -> Result<(WrittenAtom<'a>, &'a [u8]), ReadError>
    ensures goes { (k : ForAtom) → Goes result (term_reading bytes.now (at_atom k))
        (λ x. term_reading x.1.now (atom_done (written_atom_in x.0) k)) }
    ensures shorter { IfOk result (λ x. length x.1.now < length bytes.now) }
{
    let (start, rest) = begin_atom(bytes)?;
    match start {
        AtomStart::Symbol(side, name) => Ok((WrittenAtom::Symbol(side, name), rest)),
        AtomStart::Array(base) => read(alloc, base, rest),
        AtomStart::Division(kind) => division(alloc, kind, rest),
    }
}

// A polynomial behind what opens its place, where that was there, up to the byte that closes it.
#[cycle(terms)]
fn inside<'a>(
    alloc: Global,
    opened: Result<&'a [u8], ReadError>,
    closing: u8,
) -> Result<(WrittenPolynomial<'a>, &'a [u8]), ReadError>
    ensures goes { (text : Option TermSyntax) (k : ForPolynomial) (done : Polynomial → Owed) → Closes closing k done
        → Goes opened.entry text (λ r. term_reading r.now (at_polynomial k))
        → Goes result text (λ x. term_reading x.1.now (done (written_polynomial_in x.0))) }
    ensures shorter { IfOk result (λ x. length x.1.now < rest_length opened.entry) }
{
    match opened {
        Ok(bytes) => close(polynomial(alloc, bytes), closing),
        Err(error) => Err(error),
    }
}

// What is read of an array, after its base.
#[cycle(terms)]
#[inline(never)]
fn read<'a>(
    alloc: Global,
    base: WrittenBase<'a>,
    bytes: &'a [u8],
) -> Result<(WrittenAtom<'a>, &'a [u8]), ReadError>
    ensures goes { (k : ForAtom) → Goes result (term_reading bytes.now (after_array (base_in base.entry) (read_of k)))
        (λ x. term_reading x.1.now (atom_done (written_atom_in x.0) k)) }
    ensures shorter { IfOk result (λ x. length x.1.now < length bytes.now) }
{
    let (array, rest) = writes(alloc, base, bytes)?;
    make_read(alloc, array, inside(alloc, expect(rest, b'['), b']'))
}

/// An array after its base, and what follows it. `BadTerm` where a write of it is not whole; `NoMemory` may come at any time.
#[cycle(terms)]
pub fn writes<'a>(
    alloc: Global,
    base: WrittenBase<'a>,
    bytes: &'a [u8],
) -> Result<(WrittenArray<'a>, &'a [u8]), ReadError>
    ensures goes { (k : ForArray) → Goes result (term_reading bytes.now (after_array (base_in base.entry) k))
        (λ x. term_reading x.1.now (after_array (written_array_in x.0) k)) }
    ensures shorter { IfOk result (λ x. length x.1.now ≤ length bytes.now) }
    ensures ends { IfOk result (λ x. EndsWrites x.1.now) }
{
    let mut writes = Vec::new(alloc);
    let mut rest = bytes;
    loop {
        match rest_after(rest, b'{') {
            Some(after) => {
                let (index, after) = polynomial(alloc, after)?;
                rest = push_both(
                    &mut writes,
                    beside(index, inside(alloc, expect_two(after, b':', b' '), b'}')),
                )?;
            }
            None => return Ok((WrittenArray { base, writes }, rest)),
        }
    }
}

/// The value of a write or an item, up to the closing brace, and what follows that. `BadTerm` where that is not what stands
/// there; `NoMemory` may come at any time.
pub fn value_in_braces<'a>(
    alloc: Global,
    bytes: &'a [u8],
) -> Result<(WrittenPolynomial<'a>, &'a [u8]), ReadError>
    ensures write { (a : ArrayTerm) (i : Polynomial) (k : ForArray)
        → Goes result (term_reading bytes.now (at_polynomial (value a i k)))
        (λ x. term_reading x.1.now (after_array (Written a i (written_polynomial_in x.0)) k)) }
    ensures item { (l : ListSyntax) → Goes result (term_reading bytes.now (at_polynomial (item l)))
        (λ x. term_reading x.1.now (after_list (Pushed l (written_polynomial_in x.0)))) }
    ensures shorter { IfOk result (λ x. length x.1.now < length bytes.now) }
{
    close(polynomial(alloc, bytes), b'}')
}

// A quotient, or a remainder, after its parenthesis.
#[cycle(terms)]
#[inline(never)]
fn division<'a>(
    alloc: Global,
    kind: DivisionKind,
    bytes: &'a [u8],
) -> Result<(WrittenAtom<'a>, &'a [u8]), ReadError>
    ensures goes { (k : ForAtom) → Goes result (term_reading bytes.now (at_polynomial (left_side kind k)))
        (λ x. term_reading x.1.now (atom_done (written_atom_in x.0) k)) }
    ensures shorter { IfOk result (λ x. length x.1.now < length bytes.now) }
{
    let (left, rest) = polynomial(alloc, bytes)?;
    make_division(
        alloc,
        kind,
        left,
        inside(alloc, expect_two(rest, b',', b' '), b')'),
    )
}

// A number, or the first atom of a monomial.
#[cycle(terms)]
#[inline(always)]
fn head<'a>(alloc: Global, bytes: &'a [u8]) -> Result<(WrittenHead<'a>, &'a [u8]), ReadError>
    ensures goes { (k : ForMonomial) → Goes result (term_reading bytes.now (at_monomial k))
        (λ x. term_reading x.1.now (after_monomial (head_in x.0) k)) }
    ensures shorter { IfOk result (λ x. length x.1.now < length bytes.now) }
{
    if begins_with_digit(bytes) {
        let (digits, rest) = number(bytes)?;
        Ok((WrittenHead::Number(digits), rest))
    } else {
        one(atom(alloc, bytes))
    }
}

// The atoms of a monomial after its head.
#[cycle(terms)]
#[inline(always)]
fn atoms<'a>(alloc: Global, bytes: &'a [u8]) -> Result<(Vec<WrittenAtom<'a>>, &'a [u8]), ReadError>
    ensures goes { (m : Monomial) (k : ForMonomial) → Goes result (term_reading bytes.now (after_monomial m k))
        (λ x. term_reading x.1.now (monomial_done (times_all m (map written_atom_in x.0.items)) k)) }
    ensures shorter { IfOk result (λ x. length x.1.now ≤ length bytes.now) }
{
    let mut atoms = Vec::new(alloc);
    let mut rest = bytes;
    loop {
        match rest_after(rest, b'*') {
            Some(after) => {
                rest = push_read(&mut atoms, atom(alloc, after))?;
            }
            None => return Ok((atoms, rest)),
        }
    }
}

/// A monomial, and what follows it. `BadTerm` where none stands there; `NoMemory` may come at any time.
#[cycle(terms)]
#[inline(always)]
pub fn monomial<'a>(
    alloc: Global,
    bytes: &'a [u8],
) -> Result<(WrittenMonomial<'a>, &'a [u8]), ReadError>
    ensures goes { (k : ForMonomial) → Goes result (term_reading bytes.now (at_monomial k))
        (λ x. term_reading x.1.now (monomial_done (written_monomial_in x.0) k)) }
    ensures shorter { IfOk result (λ x. length x.1.now < length bytes.now) }
{
    let (first, rest) = head(alloc, bytes)?;
    let (head, atoms, rest) = beside(first, atoms(alloc, rest))?;
    Ok((WrittenMonomial { head, atoms }, rest))
}

/// A monomial that is not the first of a sum, from its sign on. `BadTerm` where none stands there; `NoMemory` may come at any
/// time.
#[cycle(terms)]
#[inline(always)]
pub fn further<'a>(
    alloc: Global,
    bytes: &'a [u8],
) -> Result<(bool, WrittenMonomial<'a>, &'a [u8]), ReadError>
    ensures goes { (s : Sum) (k : ForPolynomial)
        → Goes result (term_reading bytes.now (at_sign s k))
        (λ x. term_reading x.2.now (after_sum (more_sum s (x.0, written_monomial_in x.1)) k)) }
    ensures shorter { IfOk result (λ x. length x.2.now < length bytes.now) }
{
    let (minus, rest) = sign(bytes)?;
    beside(minus, monomial(alloc, rest))
}

// A sum, after the sign of its first monomial.
#[cycle(terms)]
fn sum<'a>(
    alloc: Global,
    minus: bool,
    bytes: &'a [u8],
) -> Result<(WrittenPolynomial<'a>, &'a [u8]), ReadError>
    ensures goes { (k : ForPolynomial) → Goes result (term_reading bytes.now (at_monomial (first_monomial_for minus k)))
        (λ x. term_reading x.1.now (after_polynomial (written_polynomial_in x.0) k)) }
    ensures shorter { IfOk result (λ x. length x.1.now < length bytes.now) }
{
    let mut monomials = Vec::new(alloc);
    let mut rest = push_both(&mut monomials, beside(minus, monomial(alloc, bytes)))?;
    loop {
        match rest_after(rest, b' ') {
            Some(after) => {
                rest = push_both(&mut monomials, further(alloc, after))?;
            }
            None => return Ok((WrittenPolynomial { monomials }, rest)),
        }
    }
}

/// A polynomial at the beginning of bytes, and what follows it. `BadTerm` where none stands there; `NoMemory` may come at any
/// time.
#[cycle(terms)]
#[inline(never)]
pub fn polynomial<'a>(
    alloc: Global,
    bytes: &'a [u8],
) -> Result<(WrittenPolynomial<'a>, &'a [u8]), ReadError>
    ensures goes { (k : ForPolynomial) → Goes result (term_reading bytes.now (at_polynomial k))
        (λ x. term_reading x.1.now (after_polynomial (written_polynomial_in x.0) k)) }
    ensures shorter { IfOk result (λ x. length x.1.now < length bytes.now) }
{
    if !begins_with_zero_or_minus(bytes) {
        return sum(alloc, false, bytes);
    }
    match bytes {
        [b'0', rest @ ..] => Ok((
            WrittenPolynomial {
                monomials: Vec::new(alloc),
            },
            rest,
        )),
        [b'-', rest @ ..] => sum(alloc, true, rest),
        _ => Err(ReadError::BadTerm),
    }
}
