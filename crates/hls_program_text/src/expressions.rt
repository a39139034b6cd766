//! The sums and guards of a program.

ghost use Rattle.std.specs.Prelude.{◌<◌, length, IfOk};
ghost use Rattle.fs_model.specs.View.{named_expression, named_guard};
ghost use Rattle.fs_grammar.specs.Tokens.{ParsesOn};
ghost use Rattle.fs_expression_text.specs.Inside.{at_sum, at_guard, sum_alone, guard_alone, whole_sum, whole_guard};
ghost use Rattle.hls_program_parts.specs.ProgramGrammar.{Hole, program_reading, inside, after};

use fs_grammar::fault::ReadError;
use fs_grammar::token::Token;
use fs_model::name::Name;
use fs_model::parts::{Expr, Guard};
use std::alloc::Global;

/// A sum, and the tokens after it. An `Err` is the first fault, or out of memory.
pub fn sum(alloc: Global, tokens: &[Token]) -> Result<(Expr<Name>, &[Token]), ReadError>
    ensures goes { (h : Hole) → ParsesOn result (program_reading tokens.now (inside h (at_sum sum_alone)))
        (λ x. program_reading x.1.now (after h (whole_sum (named_expression x.0)))) }
    ensures shorter { IfOk result (λ x. length x.1.now < length tokens.now) }
{
    fs_expression_text::sums::sum(alloc, tokens)
}

/// A guard, and the tokens after it. An `Err` is the first fault, or out of memory.
pub fn guard(alloc: Global, tokens: &[Token]) -> Result<(Guard, &[Token]), ReadError>
    ensures goes { (h : Hole) → ParsesOn result (program_reading tokens.now (inside h (at_guard guard_alone)))
        (λ x. program_reading x.1.now (after h (whole_guard (named_guard x.0)))) }
    ensures shorter { IfOk result (λ x. length x.1.now < length tokens.now) }
{
    fs_phrase_text::guards::guard(alloc, tokens)
}
