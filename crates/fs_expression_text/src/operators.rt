//! Operators between two operands of a sum or a product.

ghost use Rattle.std.specs.Prelude.{◌≡◌};
ghost use Rattle.fs_model.specs.View.{named_expression};
ghost use Rattle.fs_grammar.specs.Tokens.{MadeAs};
ghost use Rattle.fs_expression_text.specs.ExpressionOperators.{product_operator_at, sum_operator_at, product_expression};
ghost use Rattle.fs_expression_text.specs.ExpressionOperators.{sum_expression};

use fs_grammar::fault::ReadError;
use fs_grammar::token::{Token, TokenKind, front};
use fs_model::name::Name;
use fs_model::parts::Expr;
use std::alloc::Global;

/// An operator between two factors.
#[derive(Clone, Copy)]
pub enum ProductOperator {
    Times,
    Divide,
    Remainder,
}

/// An operator between two products.
#[derive(Clone, Copy)]
pub enum SumOperator {
    Plus,
    Minus,
}

/// The operator with which a product goes on, if the first token is one.
pub fn product_operator(tokens: &[Token]) -> Option<ProductOperator>
    ensures { result ≡ product_operator_at tokens.now }
{
    match front(tokens) {
        Some(TokenKind::Star) => Some(ProductOperator::Times),
        Some(TokenKind::Slash) => Some(ProductOperator::Divide),
        Some(TokenKind::Percent) => Some(ProductOperator::Remainder),
        _ => None,
    }
}

/// The operator with which a sum goes on, if the first token is one.
pub fn sum_operator(tokens: &[Token]) -> Option<SumOperator>
    ensures { result ≡ sum_operator_at tokens.now }
{
    match front(tokens) {
        Some(TokenKind::Plus) => Some(SumOperator::Plus),
        Some(TokenKind::Minus) => Some(SumOperator::Minus),
        _ => None,
    }
}

/// A product of two factors by an operator.
pub fn make_product(
    alloc: Global,
    operator: ProductOperator,
    left: Expr<Name>,
    right: Expr<Name>,
) -> Result<Expr<Name>, ReadError>
    ensures { MadeAs result (λ e. named_expression e
        ≡ product_expression operator (named_expression left) (named_expression right)) }
{
    let left = Box::new(alloc, left)?;
    let right = Box::new(alloc, right)?;
    match operator {
        ProductOperator::Times => Ok(Expr::Mul(left, right)),
        ProductOperator::Divide => Ok(Expr::Div(left, right)),
        ProductOperator::Remainder => Ok(Expr::Rem(left, right)),
    }
}

/// A sum of two products by an operator.
pub fn make_sum(
    alloc: Global,
    operator: SumOperator,
    left: Expr<Name>,
    right: Expr<Name>,
) -> Result<Expr<Name>, ReadError>
    ensures { MadeAs result (λ e. named_expression e ≡ sum_expression operator (named_expression left) (named_expression right)) }
{
    let left = Box::new(alloc, left)?;
    let right = Box::new(alloc, right)?;
    match operator {
        SumOperator::Plus => Ok(Expr::Add(left, right)),
        SumOperator::Minus => Ok(Expr::Sub(left, right)),
    }
}
