//! From the text of a condition to its literal.

ghost use Rattle.std.specs.Prelude.{◌≡◌, ℕ, true, List, IfOk, IfErr};
ghost use Rattle.nf_rel.specs.Literals as literals;
ghost use Rattle.nf_rel.specs.NormalLiterals.{is_inner_number, is_normal_literal};
ghost use Rattle.nf_rel.specs.View.{literal_in};
ghost use Rattle.term_condition_text.specs.View.{integer_in, condition_in};
ghost use Rattle.term_condition_text.specs.ConditionTexts.{SpellsCondition};
ghost use Rattle.term_condition_text.specs.DigitNumbers.{clipped_number};
ghost use Rattle.term_values.specs.Conditions.{integer_value};
ghost use Rattle.term_values.specs.TermFaults.{IsJudgedAs, IsLiteralOf, IsRefusedCondition};

use crate::faults::{TermError, WrittenTerm, fault};
use crate::names::Names;
use crate::reader::normal_polynomial;
use nf_rel::kind::Kind;
use nf_rel::literals::{Bound, NLit};
use nf_rel::normal::is_inner;
use nf_rel::primitive::is_primitive;
use nf_terms::poly::Poly;
use std::alloc::Global;
use term_condition_text::condition::{WrittenCondition, WrittenInteger};
use term_condition_text::numbers::clip_number;
use term_condition_text::reader::read_condition;

// The number that is written.
fn integer(written: &WrittenInteger<'_>) -> i128
    ensures { result ≡ integer_value clipped_number (integer_in written.now) }
{
    match written {
        WrittenInteger::Zero => 0,
        WrittenInteger::Positive(digits) => clip_number(digits),
        WrittenInteger::Negative(digits) => -clip_number(digits),
    }
}

// The literal of a direction and a bound that is in the range of each relation.
#[tactic(auto, using(crate::proofs::LiteralForms::inner_in_range))]
fn inner_literal(dir: Poly, kind: Kind, bound: &i128) -> NLit
    requires { is_inner_number bound.now ≡ true }
    ensures { literal_in result ≡ literals.Is dir kind bound.now }
{
    NLit::Is(Bound {
        dir,
        kind,
        bound: *bound,
    })
}

// The literal of a direction and a bound, where it is in normal form.
fn bound_direction(dir: Poly, kind: Kind, bound: &i128) -> Result<NLit, TermError>
    ensures { IsJudgedAs literal_in result (is_normal_literal (literals.Is dir kind bound.now)) (literals.Is dir kind bound.now) }
{
    let _ = dir.tree(); // The call tells the proof that the direction is normal.
    if !is_inner(bound) {
        return Err(TermError::NotNormal);
    }
    if !is_primitive(&dir) {
        return Err(TermError::NotNormal);
    }
    Ok(inner_literal(dir, kind, bound))
}

// The literal that a written condition stands for, where it has no fault.
fn normal_literal<N: Names>(
    alloc: Global,
    names: &N,
    written: &WrittenCondition<'_>,
) -> Result<NLit, TermError>
    ensures read { (bytes : List ℕ) → SpellsCondition bytes (condition_in written.now)
        → IfOk result (λ l. IsLiteralOf (N.find names.now) bytes (literal_in l)) }
    ensures refused { (bytes : List ℕ) → SpellsCondition bytes (condition_in written.now)
        → IfErr result (λ e. IsRefusedCondition (N.find names.now) bytes e) }
{
    if let Some(fault) = fault(names, WrittenTerm::Condition(written)) {
        return Err(fault);
    }
    match written {
        WrittenCondition::False => Ok(NLit::False),
        WrittenCondition::Compared(polynomial, kind, number) => {
            let dir = normal_polynomial(alloc, names, polynomial)?;
            let bound = integer(number);
            bound_direction(dir, *kind, &bound)
        }
    }
}

/// The literal that the text of a condition stands for, in time linear in the text but for the look-ups of names.
///
/// What is refused is as for `read_poly`, of conditions: their numbers are those of the polynomial and the one it is
/// compared with, and `NotNormal` comes where the literal is not in normal form or its bound is past its limits.
pub fn read_literal<N: Names>(alloc: Global, names: &N, bytes: &[u8]) -> Result<NLit, TermError>
    ensures read { IfOk result (λ l. IsLiteralOf (N.find names.now) bytes.now (literal_in l)) }
    ensures refused { IfErr result (λ e. IsRefusedCondition (N.find names.now) bytes.now e) }
{
    let written = read_condition(alloc, bytes)?;
    normal_literal(alloc, names, &written)
}
