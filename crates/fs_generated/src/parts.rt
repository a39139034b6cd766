//! Expressions, assignments and transitions.

ghost use Rattle.std.specs.Prelude.{◌≡◌, ◌∷◌, ◌++◌, [], true, map, IfOk, Some, None};
ghost use Rattle.fs_model.specs.Words.{is_name};
ghost use Rattle.fs_model.specs.Expressions.{Variable, Sum};
ghost use Rattle.fs_model.specs.View.{named_expression, named_guard, named_assignment, source_transition_of};
ghost use Rattle.fs_generated.specs.Generated.{letter_assignment, transition, turns_are_left, summand, add_to_sum, count_down};
ghost use Rattle.fs_generated.specs.Generated.{take_summand};

use crate::names::short_name;
use fs_model::memory::both_boxed;
use fs_model::name::{Name, NoMemory};
use fs_model::parts::{Assign, Expr, Guard, Lit, RawLine, Rel};
use std::alloc::Global;

pub fn variable(alloc: Global, letter: u8) -> Result<Expr<Name>, NoMemory>
    requires { is_name (letter ∷ []) ≡ true }
    ensures { IfOk result (λ e. named_expression e ≡ Variable (letter ∷ [])) }
{
    Ok(Expr::Var(short_name(alloc, letter)?))
}

// A variable and an expression, added.
fn sum(alloc: Global, letter: u8, value: Expr<Name>) -> Result<Expr<Name>, NoMemory>
    requires { is_name (letter ∷ []) ≡ true }
    ensures { IfOk result (λ e. named_expression e ≡ Sum (Variable (letter ∷ [])) (named_expression value)) }
{
    let (own, value) = both_boxed(alloc, variable(alloc, letter)?, value)?;
    Ok(Expr::Add(own, value))
}

// `b + k`
pub fn summand(alloc: Global, k: u32) -> Result<Expr<Name>, NoMemory>
    ensures { IfOk result (λ e. named_expression e ≡ summand k) }
{
    sum(alloc, b'b', Expr::Num(i128::from(k)))
}

pub fn assign(alloc: Global, letter: u8, value: Expr<Name>) -> Result<Assign<Name>, NoMemory>
    requires { is_name (letter ∷ []) ≡ true }
    ensures { IfOk result (λ a. named_assignment a ≡ letter_assignment letter (named_expression value)) }
{
    Ok(Assign::Set(short_name(alloc, letter)?, value))
}

// `t = b + k`
pub fn take_summand(alloc: Global, k: u32) -> Result<Assign<Name>, NoMemory>
    ensures { IfOk result (λ a. named_assignment a ≡ take_summand k) }
{
    assign(alloc, b't', summand(alloc, k)?)
}

// `s = s + value`
pub fn add_to_sum(alloc: Global, value: Expr<Name>) -> Result<Assign<Name>, NoMemory>
    ensures { IfOk result (λ a. named_assignment a ≡ add_to_sum (named_expression value)) }
{
    assign(alloc, b's', sum(alloc, b's', value)?)
}

// `i = i - 1`
pub fn count_down(alloc: Global) -> Result<Assign<Name>, NoMemory>
    ensures { IfOk result (λ a. named_assignment a ≡ count_down) }
{
    let (own, one) = both_boxed(alloc, variable(alloc, b'i')?, Expr::Num(1))?;
    assign(alloc, b'i', Expr::Sub(own, one))
}

// `i > 0`
pub fn turns_are_left(alloc: Global) -> Result<Guard, NoMemory>
    ensures { IfOk result (λ g. named_guard g ≡ turns_are_left) }
{
    Ok(Guard::Lit(Lit {
        rel: Rel::Gt,
        left: variable(alloc, b'i')?,
        right: Expr::Num(0),
    }))
}

// A transition that is always taken.
pub fn transition(target: Name, assigns: Vec<Assign<Name>>) -> RawLine
    ensures { source_transition_of result ≡ transition None target (map named_assignment assigns.items) }
{
    RawLine {
        line: 1,
        guard: None,
        target,
        assigns,
    }
}

// A transition that is taken where turns are left.
pub fn turn(alloc: Global, target: Name, assigns: Vec<Assign<Name>>) -> Result<RawLine, NoMemory>
    ensures { IfOk result
        (λ l. source_transition_of l ≡ transition (Some turns_are_left) target (map named_assignment assigns.items)) }
{
    Ok(RawLine {
        line: 1,
        guard: Some(turns_are_left(alloc)?),
        target,
        assigns,
    })
}

// The items with one more behind them.
pub fn with_last<T: Drop>(items: Vec<T>, item: T) -> Result<Vec<T>, NoMemory>
    ensures { IfOk result (λ out. out.items ≡ items.items ++ item ∷ []) }
{
    let mut out = items;
    out.push(item)?;
    Ok(out)
}

pub fn one<T: Drop>(alloc: Global, item: T) -> Result<Vec<T>, NoMemory>
    ensures { IfOk result (λ out. out.items ≡ item ∷ []) }
{
    with_last(Vec::new(alloc), item)
}

pub fn two<T: Drop>(alloc: Global, first: T, second: T) -> Result<Vec<T>, NoMemory>
    ensures { IfOk result (λ out. out.items ≡ first ∷ second ∷ []) }
{
    let out = one(alloc, first)?;
    with_last(out, second)
}
