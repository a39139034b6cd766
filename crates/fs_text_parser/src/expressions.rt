//! The sums and guards of a machine text.

ghost use Rattle.std.specs.Prelude.{◌<◌, length, IfOk};
ghost use Rattle.fs_model.specs.View.{named_expression, named_guard};
ghost use Rattle.fs_grammar.specs.Tokens.{ParsesOn};
ghost use Rattle.fs_grammar.specs.PartEnds.{EndsSum, EndsGuard};
ghost use Rattle.fs_grammar.specs.Grammar.{SumContext, GuardContext, reading, at_sum, after_sum, at_guard, after_guard};

use fs_grammar::fault::ReadError;
use fs_grammar::token::Token;
use fs_model::name::Name;
use fs_model::parts::{Expr, Guard};
use std::alloc::Global;

/// A sum, and the tokens after it. An `Err` is the first fault, or out of memory.
pub fn sum(alloc: Global, tokens: &[Token]) -> Result<(Expr<Name>, &[Token]), ReadError>
    ensures goes { (k : SumContext) → ParsesOn result (reading tokens.now (at_sum k))
        (λ x. reading x.1.now (after_sum (named_expression x.0) k)) }
    ensures shorter { IfOk result (λ x. length x.1.now < length tokens.now) }
    ensures ends { IfOk result (λ x. EndsSum x.1.now) }
{
    fs_expression_text::sums::sum(alloc, tokens)
}

/// A guard, and the tokens after it. An `Err` is the first fault, or out of memory.
pub fn guard(alloc: Global, tokens: &[Token]) -> Result<(Guard, &[Token]), ReadError>
    ensures goes { (k : GuardContext) → ParsesOn result (reading tokens.now (at_guard k))
        (λ x. reading x.1.now (after_guard (named_guard x.0) k)) }
    ensures shorter { IfOk result (λ x. length x.1.now < length tokens.now) }
    ensures ends { IfOk result (λ x. EndsGuard x.1.now) }
{
    fs_phrase_text::guards::guard(alloc, tokens)
}
