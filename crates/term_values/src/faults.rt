//! Why the text of a term is refused.

ghost use Rattle.std.specs.Prelude.{◌≡◌};
ghost use Rattle.term_values.specs.declared.faults.TermError.TheVariants as errors;
ghost use Rattle.term_condition_text.specs.View.{integer_in, condition_in};
ghost use Rattle.term_values.specs.Conditions.{integer_passes, written_condition_passes};
ghost use Rattle.term_values.specs.TermFaults.{of_reading, fault_by};
ghost use Rattle.term_values.specs.TermTests.{written_passes};

use crate::checks::{Check, array_passes, list_passes, polynomial_passes};
use crate::names::Names;
use crate::tests::{Faultless, NamesKnown, NumbersFit, OnesLeftOut, SortsFit};
use nf_terms::stop::NoMemory;
use std::alloc::AllocFailed;
use term_condition_text::condition::{WrittenCondition, WrittenInteger};
use term_text::fault::ReadError;
use term_text::tree::{WrittenArray, WrittenList, WrittenPolynomial};

/// Why the text of a term is refused.
#[derive(Clone, Copy)]
pub enum TermError {
    /// The bytes spell no term of the sort that is wanted, or more than 64 brackets are open at once.
    BadTerm,
    /// A number is above 2^127 - 1.
    NumberTooBig,
    /// A name stands for no position.
    UnknownName,
    /// A name stands for a position of another sort than the one that is needed.
    SortOf,
    /// The term is not in normal form, writes a 1 before an atom, or is past a limit.
    NotNormal,
    /// There is no memory.
    NoMemory,
}

impl From<ReadError> for TermError {
    ghost use Rattle.term_values.specs.TermFaults.{of_reading};

    ghost from_gives = { λ d e. e ≡ of_reading d };

    fn from(e: ReadError) -> TermError {
        match e {
            ReadError::BadTerm => TermError::BadTerm,
            ReadError::NoMemory => TermError::NoMemory,
        }
    }
}

impl From<NoMemory> for TermError {
    ghost from_gives = { λ _ e. e ≡ errors.NoMemory };

    fn from(_refused: NoMemory) -> TermError {
        TermError::NoMemory
    }
}

impl<T: Drop> From<AllocFailed<T>> for TermError {
    ghost from_gives = { λ _ e. e ≡ errors.NoMemory };

    fn from(_refused: AllocFailed<T>) -> TermError {
        TermError::NoMemory
    }
}

/// A written term of one of the three sorts, or a written condition.
#[derive(Clone, Copy)]
pub enum WrittenTerm<'a, 'b> {
    Polynomial(&'a WrittenPolynomial<'b>),
    Array(&'a WrittenArray<'b>),
    List(&'a WrittenList<'b>),
    Condition(&'a WrittenCondition<'b>),
}

// Whether the digits of a number pass.
fn integer_passes<C: Check>(check: &C, integer: &WrittenInteger<'_>) -> bool
    ensures { result ≡ integer_passes (C.test check.now) (integer_in integer.now) }
{
    match integer {
        WrittenInteger::Zero => true,
        WrittenInteger::Positive(digits) | WrittenInteger::Negative(digits) => check.number(digits),
    }
}

fn condition_passes<C: Check>(check: &C, condition: &WrittenCondition<'_>) -> bool
    ensures { result ≡ written_condition_passes (C.test check.now) (condition_in condition.now) }
{
    match condition {
        WrittenCondition::False => true,
        WrittenCondition::Compared(polynomial, _, integer) => {
            polynomial_passes(check, polynomial) && integer_passes(check, integer)
        }
    }
}

fn passes<C: Check>(check: &C, term: WrittenTerm<'_, '_>) -> bool
    ensures { result ≡ written_passes (C.test check.now) term.entry }
{
    match term {
        WrittenTerm::Polynomial(polynomial) => polynomial_passes(check, polynomial),
        WrittenTerm::Array(array) => array_passes(check, array),
        WrittenTerm::List(list) => list_passes(check, list),
        WrittenTerm::Condition(condition) => condition_passes(check, condition),
    }
}

// The first fault that one test after another shows.
fn first_fault<N: Names>(names: &N, term: WrittenTerm<'_, '_>) -> Option<TermError>
    ensures { result ≡ fault_by (λ test. written_passes test term.entry) (N.find names.now) }
{
    if !passes(&NumbersFit, term) {
        return Some(TermError::NumberTooBig);
    }
    if !passes(&NamesKnown(names), term) {
        return Some(TermError::UnknownName);
    }
    if !passes(&SortsFit(names), term) {
        return Some(TermError::SortOf);
    }
    if !passes(&OnesLeftOut, term) {
        return Some(TermError::NotNormal);
    }
    None
}

/// The first fault that the numbers and names of a term show. A term that shows none is gone over once.
#[tactic(auto, using(crate::proofs::Faultless::no_fault))]
pub fn fault<N: Names>(names: &N, term: WrittenTerm<'_, '_>) -> Option<TermError>
    ensures { result ≡ fault_by (λ test. written_passes test term.entry) (N.find names.now) }
{
    if passes(&Faultless(names), term) {
        return None;
    }
    first_fault(names, term)
}
