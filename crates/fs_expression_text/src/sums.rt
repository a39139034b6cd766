//! Sums, products and factors, by descent.

ghost use Rattle.std.specs.Prelude.{◌≡◌, ◌<◌, ◌≤◌, ℕ, List, Some, None, length, IfOk};
ghost use Rattle.fs_model.specs.Expressions.{Expression, Read, Negative};
ghost use Rattle.fs_model.specs.View.{named_expression};
ghost use Rattle.fs_grammar.specs.Tokens.{ParsesOn, MadeAs, kind_at};
ghost use Rattle.fs_grammar.specs.declared.token.TokenKind.TheVariants.{Minus, OpenParen};
ghost use Rattle.fs_grammar.specs.PartEnds.{EndsSum};
ghost use Rattle.fs_expression_text.specs.ExpressionOperators.{product_operator_at, sum_operator_at, product_expression};
ghost use Rattle.fs_expression_text.specs.ExpressionOperators.{sum_expression};
ghost use Rattle.fs_expression_text.specs.Inside.{FactorContext, ProductContext, SumContext, parse_expression, factor_done};
ghost use Rattle.fs_expression_text.specs.Inside.{product_done, at_factor, after_name, after_product, at_sum, after_sum};
ghost use Rattle.fs_expression_text.specs.Inside.{first_factor, parens, index};

use crate::operators::{
    ProductOperator, SumOperator, make_product, make_sum, product_operator, sum_operator,
};
use fs_grammar::fault::ReadError;
use fs_grammar::token::{Token, TokenKind, accept, front, refuse};
use fs_model::name::Name;
use fs_model::parts::Expr;
use std::alloc::Global;

// The parenthesis that closes a sum.
fn close_paren(tokens: &[Token]) -> Result<&[Token], ReadError>
    requires { EndsSum tokens.now }
    ensures goes { (s : Expression (List ℕ)) (k : FactorContext)
        → ParsesOn result (parse_expression tokens.now (after_sum s (parens k))) (λ r. parse_expression r.now (factor_done s k)) }
    ensures shorter { IfOk result (λ r. length r.now < length tokens.now) }
{
    match front(tokens) {
        Some(TokenKind::CloseParen) => accept(tokens),
        _ => Err(refuse(tokens)),
    }
}

// The bracket that closes an index.
fn close_bracket(tokens: &[Token]) -> Result<&[Token], ReadError>
    requires { EndsSum tokens.now }
    ensures goes { (s : Expression (List ℕ)) (x : List ℕ) (k : FactorContext)
        → ParsesOn result (parse_expression tokens.now (after_sum s (index x k)))
        (λ r. parse_expression r.now (factor_done (Read x s) k)) }
    ensures shorter { IfOk result (λ r. length r.now < length tokens.now) }
{
    match front(tokens) {
        Some(TokenKind::CloseBracket) => accept(tokens),
        _ => Err(refuse(tokens)),
    }
}

fn element(alloc: Global, name: Name, index: Expr<Name>) -> Result<Expr<Name>, ReadError>
    ensures { MadeAs result (λ e. named_expression e ≡ Read name (named_expression index)) }
{
    Ok(Expr::Read(name, Box::new(alloc, index)?))
}

fn negative(alloc: Global, value: Expr<Name>) -> Result<Expr<Name>, ReadError>
    ensures { MadeAs result (λ e. named_expression e ≡ Negative (named_expression value)) }
{
    Ok(Expr::Neg(Box::new(alloc, value)?))
}

#[cycle(sums)]
fn factor(alloc: Global, tokens: &[Token]) -> Result<(Expr<Name>, &[Token]), ReadError>
    ensures goes { (k : FactorContext) → ParsesOn result (parse_expression tokens.now (at_factor k))
        (λ x. parse_expression x.1.now (factor_done (named_expression x.0) k)) }
    ensures shorter { IfOk result (λ x. length x.1.now < length tokens.now) }
{
    match front(tokens) {
        Some(TokenKind::Number(n)) => {
            let n = *n;
            let rest = accept(tokens)?;
            Ok((Expr::Num(n), rest))
        }
        Some(TokenKind::Name(name)) => {
            let rest = accept(tokens)?;
            let name = name.try_clone(alloc)?;
            variable(alloc, name, rest)
        }
        Some(TokenKind::Minus) => factor_after_minus(alloc, tokens),
        Some(TokenKind::OpenParen) => sum_in_parentheses(alloc, tokens),
        _ => Err(refuse(tokens)),
    }
}

// A factor behind a sign.
#[cycle(sums)]
fn factor_after_minus(alloc: Global, tokens: &[Token]) -> Result<(Expr<Name>, &[Token]), ReadError>
    requires { kind_at tokens.now ≡ Some Minus }
    ensures goes { (k : FactorContext) → ParsesOn result (parse_expression tokens.now (at_factor k))
        (λ x. parse_expression x.1.now (factor_done (named_expression x.0) k)) }
    ensures shorter { IfOk result (λ x. length x.1.now < length tokens.now) }
{
    let rest = accept(tokens)?;
    let (inner, rest) = factor(alloc, rest)?;
    let value = negative(alloc, inner)?;
    Ok((value, rest))
}

// A sum in parentheses.
#[cycle(sums)]
fn sum_in_parentheses(alloc: Global, tokens: &[Token]) -> Result<(Expr<Name>, &[Token]), ReadError>
    requires { kind_at tokens.now ≡ Some OpenParen }
    ensures goes { (k : FactorContext) → ParsesOn result (parse_expression tokens.now (at_factor k))
        (λ x. parse_expression x.1.now (factor_done (named_expression x.0) k)) }
    ensures shorter { IfOk result (λ x. length x.1.now < length tokens.now) }
{
    let rest = accept(tokens)?;
    let (inner, rest) = sum(alloc, rest)?;
    let rest = close_paren(rest)?;
    Ok((inner, rest))
}

// A variable or an element of an array, after its name.
#[cycle(sums)]
#[tactic(auto, using(crate::proofs::Steps::name_ends))]
fn variable(
    alloc: Global,
    name: Name,
    tokens: &[Token],
) -> Result<(Expr<Name>, &[Token]), ReadError>
    ensures goes { (k : FactorContext) → ParsesOn result (parse_expression tokens.now (after_name name k))
        (λ x. parse_expression x.1.now (factor_done (named_expression x.0) k)) }
    ensures shorter { IfOk result (λ x. length x.1.now ≤ length tokens.now) }
{
    match front(tokens) {
        Some(TokenKind::OpenBracket) => {
            let rest = accept(tokens)?;
            element_after_bracket(alloc, name, rest)
        }
        _ => Ok((Expr::Var(name), tokens)),
    }
}

// An element of an array, after the bracket that opens its index.
#[cycle(sums)]
fn element_after_bracket(
    alloc: Global,
    name: Name,
    tokens: &[Token],
) -> Result<(Expr<Name>, &[Token]), ReadError>
    ensures goes { (k : FactorContext) → ParsesOn result (parse_expression tokens.now (at_sum (index name k)))
        (λ x. parse_expression x.1.now (factor_done (named_expression x.0) k)) }
    ensures shorter { IfOk result (λ x. length x.1.now < length tokens.now) }
{
    let (index, rest) = sum(alloc, tokens)?;
    let rest = close_bracket(rest)?;
    let value = element(alloc, name, index)?;
    Ok((value, rest))
}

#[cycle(sums)]
fn product(alloc: Global, tokens: &[Token]) -> Result<(Expr<Name>, &[Token]), ReadError>
    ensures goes { (k : ProductContext) → ParsesOn result (parse_expression tokens.now (at_factor (first_factor k)))
        (λ x. parse_expression x.1.now (after_product (named_expression x.0) k)) }
    ensures shorter { IfOk result (λ x. length x.1.now < length tokens.now) }
    ensures ends { IfOk result (λ x. product_operator_at x.1.now ≡ None) }
{
    let (mut left, mut rest) = factor(alloc, tokens)?;
    'each: while let Some(operator) = product_operator(rest) {
        let (right, after) = further_factor(alloc, operator, rest)?;
        left = make_product(alloc, operator, left, right)?;
        rest = after;
    }
    Ok((left, rest))
}

// A further factor of a product, with the operator before it.
#[cycle(sums)]
#[tactic(auto, using(crate::proofs::Steps::takes_factor))]
fn further_factor(
    alloc: Global,
    operator: ProductOperator,
    tokens: &[Token],
) -> Result<(Expr<Name>, &[Token]), ReadError>
    requires { product_operator_at tokens.now ≡ Some operator }
    ensures goes { (p : Expression (List ℕ)) (k : ProductContext)
        → ParsesOn result (parse_expression tokens.now (after_product p k))
        (λ x. parse_expression x.1.now (after_product (product_expression operator p (named_expression x.0)) k)) }
    ensures shorter { IfOk result (λ x. length x.1.now < length tokens.now) }
{
    let rest = accept(tokens)?;
    factor(alloc, rest)
}

// A product as an operand of a sum.
#[cycle(sums)]
#[tactic(auto, using(crate::proofs::Steps::product_ends))]
fn operand(alloc: Global, tokens: &[Token]) -> Result<(Expr<Name>, &[Token]), ReadError>
    ensures goes { (k : ProductContext) → ParsesOn result (parse_expression tokens.now (at_factor (first_factor k)))
        (λ x. parse_expression x.1.now (product_done (named_expression x.0) k)) }
    ensures shorter { IfOk result (λ x. length x.1.now < length tokens.now) }
{
    let (value, rest) = product(alloc, tokens)?;
    Ok((value, rest))
}

/// A sum, and the tokens after it. An `Err` is the first fault, or out of memory.
#[cycle(sums)]
#[tactic(auto, using(crate::proofs::Steps::ends_sum))]
pub fn sum(alloc: Global, tokens: &[Token]) -> Result<(Expr<Name>, &[Token]), ReadError>
    ensures goes { (k : SumContext) → ParsesOn result (parse_expression tokens.now (at_sum k))
        (λ x. parse_expression x.1.now (after_sum (named_expression x.0) k)) }
    ensures shorter { IfOk result (λ x. length x.1.now < length tokens.now) }
    ensures ends { IfOk result (λ x. EndsSum x.1.now) }
{
    let (mut left, mut rest) = operand(alloc, tokens)?;
    'each: while let Some(operator) = sum_operator(rest) {
        let (right, after) = further_operand(alloc, operator, rest)?;
        left = make_sum(alloc, operator, left, right)?;
        rest = after;
    }
    Ok((left, rest))
}

// A further operand of a sum, with the operator before it.
#[cycle(sums)]
#[tactic(auto, using(crate::proofs::Steps::takes_operand))]
fn further_operand(
    alloc: Global,
    operator: SumOperator,
    tokens: &[Token],
) -> Result<(Expr<Name>, &[Token]), ReadError>
    requires { sum_operator_at tokens.now ≡ Some operator }
    ensures goes { (s : Expression (List ℕ)) (k : SumContext)
        → ParsesOn result (parse_expression tokens.now (after_sum s k))
        (λ x. parse_expression x.1.now (after_sum (sum_expression operator s (named_expression x.0)) k)) }
    ensures shorter { IfOk result (λ x. length x.1.now < length tokens.now) }
{
    let rest = accept(tokens)?;
    operand(alloc, rest)
}
