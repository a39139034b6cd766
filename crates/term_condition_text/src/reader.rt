//! Reading a whole condition.

ghost use Rattle.std.specs.Prelude.{◌≡◌, IfOk};
ghost use Rattle.term_text.specs.Machine.{TermMadeAs};
ghost use Rattle.term_condition_text.specs.ConditionTexts.{Condition, SpellsCondition};
ghost use Rattle.term_condition_text.specs.View.{condition_in};

use crate::condition::WrittenCondition;
use crate::parts::{is_false, parts};
use crate::whole_terms::read_polynomial;
use std::alloc::Global;
use term_text::fault::ReadError;

/// The condition that bytes spell, in time linear in the bytes.
///
/// `BadTerm` comes exactly where they spell none, or more than 64 brackets are open at once. `NoMemory` may come at any time.
pub fn read_condition<'a>(alloc: Global, bytes: &'a [u8]) -> Result<WrittenCondition<'a>, ReadError>
    ensures found { IfOk result (λ t. SpellsCondition bytes.now (condition_in t)) }
    ensures only { (c : Condition) → SpellsCondition bytes.now c → TermMadeAs result (λ t. condition_in t ≡ c) }
{
    if is_false(bytes) {
        return Ok(WrittenCondition::False);
    }
    match parts(bytes) {
        Some((front, kind, integer)) => match read_polynomial(alloc, front) {
            Ok(polynomial) => Ok(WrittenCondition::Compared(polynomial, kind, integer)),
            Err(refusal) => Err(refusal),
        },
        None => Err(ReadError::BadTerm),
    }
}
