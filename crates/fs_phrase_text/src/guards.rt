//! Guards, by descent.

ghost use Rattle.std.specs.Prelude.{◌≡◌, ◌<◌, ℕ, Some, List, length, IfOk, IsTrue};
ghost use Rattle.fs_model.specs.Expressions as expressions;
ghost use Rattle.fs_model.specs.Expressions.{Expression, Not, And, Or};
ghost use Rattle.fs_model.specs.View.{named_guard};
ghost use Rattle.fs_grammar.specs.Tokens.{ParsesOn, MadeAs, kind_at};
ghost use Rattle.fs_grammar.specs.PartEnds.{EndsSum, EndsConjunction, EndsGuard, IsLiteral};
ghost use Rattle.fs_expression_text.specs.Inside.{UnitContext, ConjunctionContext, GuardContext, parse_expression, unit_done};
ghost use Rattle.fs_expression_text.specs.Inside.{conjunction_done, at_sum, after_sum, left, right, at_unit, first_of_all};
ghost use Rattle.fs_expression_text.specs.Inside.{after_conjunction, at_guard, after_guard, braces};
ghost use Rattle.fs_grammar.specs.declared.token.TokenKind.TheVariants.{Bang};
ghost use Rattle.fs_expression_text.specs.ExpressionOperators.{joins_units, joins_alternatives};

use fs_expression_text::sums::sum;
use fs_grammar::fault::ReadError;
use fs_grammar::token::{Token, TokenKind, accept, front, refuse};
use fs_model::parts::{Guard, Lit, Rel};
use std::alloc::Global;

fn relation(tokens: &[Token]) -> Result<(Rel, &[Token]), ReadError>
    requires { EndsSum tokens.now }
    ensures goes { (a : Expression (List ℕ)) (k : UnitContext)
        → ParsesOn result (parse_expression tokens.now (after_sum a (left k)))
        (λ x. parse_expression x.1.now (at_sum (right x.0 a k))) }
    ensures shorter { IfOk result (λ x. length x.1.now < length tokens.now) }
{
    match front(tokens) {
        Some(TokenKind::Relation(rel)) => {
            let rel = *rel;
            let rest = accept(tokens)?;
            Ok((rel, rest))
        }
        _ => Err(refuse(tokens)),
    }
}

// A relation between two sums.
#[tactic(auto, using(fs_expression_text::proofs::Steps::sum_ends, fs_expression_text::proofs::Steps::unit_literal))]
fn literal(alloc: Global, tokens: &[Token]) -> Result<(Guard, &[Token]), ReadError>
    requires { IsLiteral tokens.now }
    ensures goes { (k : UnitContext) → ParsesOn result (parse_expression tokens.now (at_unit k))
        (λ x. parse_expression x.1.now (unit_done (named_guard x.0) k)) }
    ensures shorter { IfOk result (λ x. length x.1.now < length tokens.now) }
{
    let (left, rest) = sum(alloc, tokens)?;
    let (rel, rest) = relation(rest)?;
    let (right, rest) = sum(alloc, rest)?;
    Ok((Guard::Lit(Lit { rel, left, right }), rest))
}

// The brace that closes a guard.
fn close_brace(tokens: &[Token]) -> Result<&[Token], ReadError>
    requires { EndsGuard tokens.now }
    ensures goes { (g : expressions.Guard (List ℕ)) (k : UnitContext)
        → ParsesOn result (parse_expression tokens.now (after_guard g (braces k))) (λ r. parse_expression r.now (unit_done g k)) }
    ensures shorter { IfOk result (λ r. length r.now < length tokens.now) }
{
    match front(tokens) {
        Some(TokenKind::CloseBrace) => accept(tokens),
        _ => Err(refuse(tokens)),
    }
}

// A guard in braces, after the opening one.
#[cycle(guards)]
fn guard_in_braces(alloc: Global, tokens: &[Token]) -> Result<(Guard, &[Token]), ReadError>
    ensures goes { (k : UnitContext) → ParsesOn result (parse_expression tokens.now (at_guard (braces k)))
        (λ x. parse_expression x.1.now (unit_done (named_guard x.0) k)) }
    ensures shorter { IfOk result (λ x. length x.1.now < length tokens.now) }
{
    let (inner, rest) = guard(alloc, tokens)?;
    let rest = close_brace(rest)?;
    Ok((inner, rest))
}

#[cycle(guards)]
fn unit(alloc: Global, tokens: &[Token]) -> Result<(Guard, &[Token]), ReadError>
    ensures goes { (k : UnitContext) → ParsesOn result (parse_expression tokens.now (at_unit k))
        (λ x. parse_expression x.1.now (unit_done (named_guard x.0) k)) }
    ensures shorter { IfOk result (λ x. length x.1.now < length tokens.now) }
{
    match front(tokens) {
        Some(TokenKind::Bang) => unit_after_bang(alloc, tokens),
        Some(TokenKind::OpenBrace) => {
            let rest = accept(tokens)?;
            guard_in_braces(alloc, rest)
        }
        _ => literal(alloc, tokens),
    }
}

// A unit behind `!`.
#[cycle(guards)]
fn unit_after_bang(alloc: Global, tokens: &[Token]) -> Result<(Guard, &[Token]), ReadError>
    requires { kind_at tokens.now ≡ Some Bang }
    ensures goes { (k : UnitContext) → ParsesOn result (parse_expression tokens.now (at_unit k))
        (λ x. parse_expression x.1.now (unit_done (named_guard x.0) k)) }
    ensures shorter { IfOk result (λ x. length x.1.now < length tokens.now) }
{
    let rest = accept(tokens)?;
    let (inner, rest) = unit(alloc, rest)?;
    let negation = negation(alloc, inner)?;
    Ok((negation, rest))
}

// Whether a conjunction goes on.
fn joins_units(tokens: &[Token]) -> bool
    ensures { result ≡ joins_units (kind_at tokens.now) }
{
    matches!(front(tokens), Some(TokenKind::AndAnd))
}

// Whether a guard goes on.
fn joins_alternatives(tokens: &[Token]) -> bool
    ensures { result ≡ joins_alternatives (kind_at tokens.now) }
{
    matches!(front(tokens), Some(TokenKind::OrOr))
}

// A further unit of a conjunction.
#[cycle(guards)]
#[tactic(auto, using(fs_expression_text::proofs::Steps::takes_unit))]
fn and_unit(alloc: Global, tokens: &[Token]) -> Result<(Guard, &[Token]), ReadError>
    requires { IsTrue (joins_units (kind_at tokens.now)) }
    ensures goes { (c : expressions.Guard (List ℕ)) (k : ConjunctionContext)
        → ParsesOn result (parse_expression tokens.now (after_conjunction c k))
        (λ x. parse_expression x.1.now (after_conjunction (And c (named_guard x.0)) k)) }
    ensures shorter { IfOk result (λ x. length x.1.now < length tokens.now) }
{
    let rest = accept(tokens)?;
    unit(alloc, rest)
}

#[cycle(guards)]
#[tactic(auto, using(fs_expression_text::proofs::Steps::ends_conjunction))]
fn conjunction(alloc: Global, tokens: &[Token]) -> Result<(Guard, &[Token]), ReadError>
    ensures goes { (k : ConjunctionContext)
        → ParsesOn result (parse_expression tokens.now (at_unit (first_of_all k)))
        (λ x. parse_expression x.1.now (after_conjunction (named_guard x.0) k)) }
    ensures shorter { IfOk result (λ x. length x.1.now < length tokens.now) }
    ensures ends { IfOk result (λ x. EndsConjunction x.1.now) }
{
    let (mut left, mut rest) = unit(alloc, tokens)?;
    'each: while joins_units(rest) {
        let (right, after) = and_unit(alloc, rest)?;
        left = both(alloc, left, right)?;
        rest = after;
    }
    Ok((left, rest))
}

// A conjunction as an alternative of a guard.
#[cycle(guards)]
#[tactic(auto, using(fs_expression_text::proofs::Steps::conjunction_ends))]
fn alternative(alloc: Global, tokens: &[Token]) -> Result<(Guard, &[Token]), ReadError>
    ensures goes { (k : ConjunctionContext)
        → ParsesOn result (parse_expression tokens.now (at_unit (first_of_all k)))
        (λ x. parse_expression x.1.now (conjunction_done (named_guard x.0) k)) }
    ensures shorter { IfOk result (λ x. length x.1.now < length tokens.now) }
{
    let (value, rest) = conjunction(alloc, tokens)?;
    Ok((value, rest))
}

// A further alternative of a guard.
#[cycle(guards)]
#[tactic(auto, using(fs_expression_text::proofs::Steps::takes_alternative))]
fn or_alternative(alloc: Global, tokens: &[Token]) -> Result<(Guard, &[Token]), ReadError>
    requires { IsTrue (joins_alternatives (kind_at tokens.now)) }
    ensures goes { (g : expressions.Guard (List ℕ)) (k : GuardContext)
        → ParsesOn result (parse_expression tokens.now (after_guard g k))
        (λ x. parse_expression x.1.now (after_guard (Or g (named_guard x.0)) k)) }
    ensures shorter { IfOk result (λ x. length x.1.now < length tokens.now) }
{
    let after = accept(tokens)?;
    alternative(alloc, after)
}

/// A guard, and the tokens after it. An `Err` is the first fault, or out of memory.
#[cycle(guards)]
#[tactic(auto, using(fs_expression_text::proofs::Steps::ends_guard))]
pub fn guard(alloc: Global, tokens: &[Token]) -> Result<(Guard, &[Token]), ReadError>
    ensures goes { (k : GuardContext) → ParsesOn result (parse_expression tokens.now (at_guard k))
        (λ x. parse_expression x.1.now (after_guard (named_guard x.0) k)) }
    ensures shorter { IfOk result (λ x. length x.1.now < length tokens.now) }
    ensures ends { IfOk result (λ x. EndsGuard x.1.now) }
{
    let (mut left, mut rest) = alternative(alloc, tokens)?;
    'each: while joins_alternatives(rest) {
        let (right, after) = or_alternative(alloc, rest)?;
        left = either(alloc, left, right)?;
        rest = after;
    }
    Ok((left, rest))
}

fn negation(alloc: Global, inner: Guard) -> Result<Guard, ReadError>
    ensures { MadeAs result (λ g. named_guard g ≡ Not (named_guard inner)) }
{
    Ok(Guard::Not(Box::new(alloc, inner)?))
}

fn both(alloc: Global, left: Guard, right: Guard) -> Result<Guard, ReadError>
    ensures { MadeAs result (λ g. named_guard g ≡ And (named_guard left) (named_guard right)) }
{
    Ok(Guard::And(Box::new(alloc, left)?, Box::new(alloc, right)?))
}

fn either(alloc: Global, left: Guard, right: Guard) -> Result<Guard, ReadError>
    ensures { MadeAs result (λ g. named_guard g ≡ Or (named_guard left) (named_guard right)) }
{
    Ok(Guard::Or(Box::new(alloc, left)?, Box::new(alloc, right)?))
}
