//! Sums that are too long to be normal: read monomial by monomial, so that none need be kept.

ghost use Rattle.std.specs.Prelude.{◌≡◌, ◌==◌, ◌<◌, ◌≤◌, ◌&&◌, ℕ, suc, false, List, [], ◌∷◌, length, IfOk, IfErr, IfSome};
ghost use Rattle.nf_terms.specs.declared.symbols.Sort.TheVariants as sort;
ghost use Rattle.term_text.specs.declared.fault.ReadError.TheVariants as refusals;
ghost use Rattle.term_text.specs.AtomStarts.{MadeFrom};
ghost use Rattle.term_text.specs.Machine.{begins};
ghost use Rattle.term_text.specs.View.{written_monomial_in};
ghost use Rattle.term_values.specs.Checks.{numbers_fit, names_known, sorts_fit, monomial_passes};
ghost use Rattle.term_values.specs.TermFaults.{IsRefusedAsTerm};
ghost use Rattle.term_values.specs.SumTallies.{tally_fault, CountsMonomial, HasTally, IsTallied};

use crate::checks::monomial_passes;
use crate::faults::TermError;
use crate::names::Names;
use crate::tests::{Faultless, NamesKnown, NumbersFit, SortsFit};
use nf_terms::limits::SIZE_LIMIT;
use std::alloc::Global;
use term_condition_text::brackets::is_shallow;
use term_condition_text::sums::{first_term, next_term};
use term_text::fault::ReadError;
use term_text::signs::rest_after;
use term_text::tree::WrittenMonomial;

/// How many monomials of a sum were read, and whether all their numbers fit, all their names are known and all sorts fit.
#[derive(Clone, Copy)]
pub struct Tally {
    pub count: u64,
    pub numbers: bool,
    pub names: bool,
    pub sorts: bool,
}

// A shorter text is read whole: what it takes is little.
const LONG_TEXT: usize = 1 << 20;

fn begins_with_zero(bytes: &[u8]) -> bool
    ensures { result ≡ begins (λ b. b == 48) bytes.now }
{
    match bytes {
        [] => false,
        [first, ..] => *first == b'0',
    }
}

// The tally with one monomial more.
#[inline(always)]
fn with_monomial<N: Names>(names: &N, tally: Tally, monomial: &WrittenMonomial<'_>) -> Tally
    ensures count { result.count ≤ suc tally.count }
    ensures numbers { result.numbers ≡ (tally.numbers && monomial_passes numbers_fit (written_monomial_in monomial.now)) }
    ensures names { result.names
        ≡ (tally.names && monomial_passes (names_known (N.find names.now)) (written_monomial_in monomial.now)) }
    ensures sorts { result.sorts
        ≡ (tally.sorts && monomial_passes (sorts_fit (N.find names.now)) (written_monomial_in monomial.now)) }
{
    let count = tally.count.saturating_add(1);
    if monomial_passes(&Faultless(names), monomial) {
        return Tally { count, ..tally };
    }
    Tally {
        count,
        numbers: tally.numbers && monomial_passes(&NumbersFit, monomial),
        names: tally.names && monomial_passes(&NamesKnown(names), monomial),
        sorts: tally.sorts && monomial_passes(&SortsFit(names), monomial),
    }
}

// The tally with a monomial that was read, and what follows it.
#[inline(always)]
fn tally_with<'a, N: Names>(
    names: &N,
    tally: Tally,
    term: Result<(bool, WrittenMonomial<'a>, &'a [u8]), ReadError>,
) -> Result<(Tally, &'a [u8]), ReadError>
    ensures { MadeFrom term.entry result
        (λ m x. CountsMonomial (N.find names.now) tally x.0 (written_monomial_in m.1) × (x.1.now ≡ m.2.now)) }
{
    match term {
        Ok((_minus, monomial, rest)) => Ok((with_monomial(names, tally, &monomial), rest)),
        Err(error) => Err(error),
    }
}

// The tally of the first monomial of a sum, and what follows it.
fn first_tally<'a, N: Names>(
    alloc: Global,
    names: &N,
    bytes: &'a [u8],
) -> Result<(Tally, &'a [u8]), ReadError>
    requires { begins (λ b. b == 48) bytes.now ≡ false }
    ensures { IsTallied bytes.now result (λ x. HasTally (N.find names.now) bytes.now x.1.now x.0) }
{
    let none = Tally {
        count: 0,
        numbers: true,
        names: true,
        sorts: true,
    };
    tally_with(names, none, first_term(alloc, bytes))
}

// The tally with the monomial that stands behind a space, from its sign on, and what follows it.
#[inline(always)]
fn next_tally<'a, N: Names>(
    alloc: Global,
    names: &N,
    tally: Tally,
    bytes: &'a [u8],
) -> Result<(Tally, &'a [u8]), ReadError>
    ensures tallied { (whole : List ℕ) → HasTally (N.find names.now) whole (32 ∷ bytes.now) tally
        → IsTallied whole result (λ x. HasTally (N.find names.now) whole x.1.now x.0) }
    ensures shorter { IfOk result (λ x. length x.1.now < length bytes.now) }
{
    tally_with(names, tally, next_term(alloc, bytes))
}

// The tally, where nothing is left behind the sum.
fn whole_tally(tally: Tally, rest: &[u8]) -> Result<Tally, ReadError>
    ensures whole { IfOk result (λ t. (t ≡ tally) × (rest.now ≡ [])) }
    ensures more { IfErr result (λ e. (e ≡ refusals.BadTerm) × (0 < length rest.now)) }
{
    match rest {
        [] => Ok(tally),
        _ => Err(ReadError::BadTerm),
    }
}

// The tally of the sum that all bytes are read as.
fn tally_of<N: Names>(alloc: Global, names: &N, bytes: &[u8]) -> Result<Tally, ReadError>
    requires { begins (λ b. b == 48) bytes.now ≡ false }
    ensures { IsTallied bytes.now result (HasTally (N.find names.now) bytes.now []) }
{
    let (mut tally, mut rest) = first_tally(alloc, names, bytes)?;
    loop {
        match rest_after(rest, b' ') {
            Some(after) => {
                let (next, after) = next_tally(alloc, names, tally, after)?;
                tally = next;
                rest = after;
            }
            None => return whole_tally(tally, rest),
        }
    }
}

// The first fault of a sum that is too long to be normal.
fn fault_of(tally: Tally) -> TermError
    ensures { result ≡ tally_fault tally }
{
    if !tally.numbers {
        TermError::NumberTooBig
    } else if !tally.names {
        TermError::UnknownName
    } else if !tally.sorts {
        TermError::SortOf
    } else {
        TermError::NotNormal
    }
}

/// Why a text is refused as a polynomial, where it is no sum or one of more monomials than a normal polynomial has. Of
/// other texts nothing is told.
pub(crate) fn long_sum_refusal<N: Names>(
    alloc: Global,
    names: &N,
    bytes: &[u8],
) -> Option<TermError>
    ensures { IfSome result (IsRefusedAsTerm (N.find names.now) sort.Scalar bytes.now) }
{
    if bytes.len() < LONG_TEXT || begins_with_zero(bytes) || !is_shallow(bytes) {
        return None;
    }
    match tally_of(alloc, names, bytes) {
        Ok(tally) => if tally.count > SIZE_LIMIT {
            Some(fault_of(tally))
        } else {
            None
        },
        Err(refusal) => Some(TermError::from(refusal)),
    }
}
