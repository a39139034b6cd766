//! Values of expressions within 128 bits.

ghost use Rattle.std.specs.Prelude.{◌≡◌, IfSome, slice_get, FitsSigned};
ghost use Rattle.std.specs.Int.{w128};
ghost use Rattle.std.specs.Option.{SomeIff};
ghost use Rattle.fs_model.specs.Meaning.{value};
ghost use Rattle.fs_model.specs.View.{expression_of};
ghost use Rattle.fs_stores.specs.Values.{value_number, entry_in, store_from};
ghost use Rattle.fs_stores.specs.Reads.{EachFits};
ghost use Rattle.fs_stores.specs.Operations.{operation_value};

use crate::arithmetic::product;
use crate::values::Value;
use base_laws::{quotient, remainder};
use fs_model::parts::{Expr, VarId};

// What a scalar holds.
fn number(values: &[Value], x: VarId) -> i128
    ensures { result ≡ value_number (slice_get values.now x.0) }
{
    match values.get(x.0 as usize) {
        Some(Value::Num(n)) => *n,
        _ => 0,
    }
}

// What an array holds at an index.
fn element(values: &[Value], x: VarId, i: i128) -> i128
    ensures { result ≡ entry_in (slice_get values.now x.0) i }
{
    match values.get(x.0 as usize) {
        Some(Value::Arr(entries)) => entries.get(i),
        _ => 0,
    }
}

// What the operator of an expression makes of two values, and `None` exactly where that lies outside 128 bits. It is 0 where
// the expression has not two operands.
fn combine(e: &Expr<VarId>, left: i128, right: i128) -> Option<i128>
    ensures { SomeIff result (FitsSigned w128 (operation_value (expression_of e.now) left right))
        (operation_value (expression_of e.now) left right) }
{
    match e {
        Expr::Add(..) => left.checked_add(right),
        Expr::Sub(..) => left.checked_sub(right),
        Expr::Mul(..) => product(left, right),
        Expr::Div(..) => quotient(left, right),
        Expr::Rem(..) => Some(remainder(left, right)),
        Expr::Num(_) | Expr::Var(_) | Expr::Read(..) | Expr::Neg(_) => Some(0),
    }
}

// The value of a number or a scalar, and `None` where an expression is another.
fn leaf_value(e: &Expr<VarId>, values: &[Value]) -> Option<i128>
    ensures { IfSome result (λ n. EachFits (expression_of e.now) (store_from values.now)
        × (n ≡ value (expression_of e.now) (store_from values.now))) }
{
    match e {
        Expr::Num(n) => Some(*n),
        Expr::Var(x) => Some(number(values, *x)),
        Expr::Read(..) | Expr::Neg(_) => None,
        Expr::Add(..) | Expr::Sub(..) | Expr::Mul(..) | Expr::Div(..) | Expr::Rem(..) => None,
    }
}

/// The value of an expression, and `None` exactly when a part of it has its value outside 128 bits.
pub fn value_of(e: &Expr<VarId>, values: &[Value]) -> Option<i128>
    ensures { SomeIff result (EachFits (expression_of e.now) (store_from values.now))
        (value (expression_of e.now) (store_from values.now)) }
{
    match leaf_value(e, values) {
        Some(n) => Some(n),
        None => tree_value(e, values),
    }
}

// The same of an operand. It stands in place of its calls, so that a number or a scalar takes none.
#[cycle(value)]
#[inline(always)]
fn operand_value(e: &Expr<VarId>, values: &[Value]) -> Option<i128>
    ensures { SomeIff result (EachFits (expression_of e.now) (store_from values.now))
        (value (expression_of e.now) (store_from values.now)) }
{
    match leaf_value(e, values) {
        Some(n) => Some(n),
        None => tree_value(e, values),
    }
}

// The same of a tree.
#[cycle(value)]
fn tree_value(e: &Expr<VarId>, values: &[Value]) -> Option<i128>
    ensures { SomeIff result (EachFits (expression_of e.now) (store_from values.now))
        (value (expression_of e.now) (store_from values.now)) }
{
    match e {
        Expr::Num(n) => Some(*n),
        Expr::Var(x) => Some(number(values, *x)),
        Expr::Read(x, i) => {
            let at = operand_value(i, values)?;
            Some(element(values, *x, at))
        }
        Expr::Add(a, b) | Expr::Sub(a, b) | Expr::Mul(a, b) | Expr::Div(a, b) | Expr::Rem(a, b) => {
            let left = operand_value(a, values)?;
            let right = operand_value(b, values)?;
            combine(e, left, right)
        }
        Expr::Neg(a) => {
            let inner = operand_value(a, values)?;
            inner.checked_neg()
        }
    }
}
