//! The terms of expressions and the literals of guards.

use crate::collection::Collection;
use crate::stop::leave_out;
use fs_model::parts::{Expr, Lit, Rel, VarId};
use nf_rel::clashes::negate;
use nf_rel::kind::Kind;
use nf_rel::literals::{Bound, NLit};
use nf_rel::normalize::literal;
use nf_sums::sums::number;
use nf_terms::form::Nf;
use nf_terms::poly::Poly;
use nf_terms::stop::{NfStop, NoMemory};
use nf_terms::tree::{Pos, Side};
use nf_vectors::vector::Vector;
use std::alloc::Global;
use std::rc::Rc;
use sym_facts::evaluation::evaluate;

// Adds the term that an expression is.
fn add_term(
    alloc: Global,
    all: &mut Collection<'_>,
    side: Side,
    e: &Expr<VarId>,
) -> Result<(), NoMemory> {
    match evaluate(alloc, side, all.own_symbols(), e) {
        Ok(value) => all.add_form(alloc, Nf::Num(value)),
        Err(stop) => leave_out(stop),
    }
}

// Notes that an array is read at an index.
fn note_read(
    alloc: Global,
    all: &mut Collection<'_>,
    array: Pos,
    i: &Expr<VarId>,
) -> Result<(), NoMemory> {
    match evaluate(alloc, array.side, all.own_symbols(), i) {
        Ok(index) => all.note_read(array, index),
        Err(stop) => leave_out(stop),
    }
}

/// Adds the terms of an expression that have an operator, each behind its own. The one refusal is out of memory.
pub(crate) fn add_expr(
    alloc: Global,
    all: &mut Collection<'_>,
    side: Side,
    e: &Expr<VarId>,
) -> Result<(), NoMemory> {
    match e {
        Expr::Num(_) | Expr::Var(_) => return Ok(()),
        Expr::Neg(i) => add_expr(alloc, all, side, i)?,
        Expr::Read(x, i) => {
            add_expr(alloc, all, side, i)?;
            note_read(alloc, all, Pos { side, var: x.0 }, i)?;
        }
        Expr::Add(l, r) | Expr::Sub(l, r) | Expr::Mul(l, r) | Expr::Div(l, r) | Expr::Rem(l, r) => {
            add_expr(alloc, all, side, l)?;
            add_expr(alloc, all, side, r)?;
        }
    }
    add_term(alloc, all, side, e)
}

// Adds the literal of a direction against another bound, unless that meets a limit.
fn add_bounded(
    alloc: Global,
    all: &mut Collection<'_>,
    relation: Rel,
    dir: &Poly,
    bound: Option<i128>,
) -> Result<(), NoMemory> {
    let Some(bound) = bound else {
        return Ok(());
    };
    let bound = match number(alloc, &bound) {
        Ok(bound) => bound,
        Err(stop) => return leave_out(stop),
    };
    match literal(alloc, relation, dir, &bound) {
        Ok(moved) => all.add_literal(alloc, moved),
        Err(stop) => leave_out(stop),
    }
}

// Adds the literals of a relation whose bounds are 1 more and 1 less.
fn add_beside(
    alloc: Global,
    all: &mut Collection<'_>,
    relation: Rel,
    b: &Bound,
) -> Result<(), NoMemory> {
    add_bounded(alloc, all, relation, &b.dir, b.bound.checked_add(1))?;
    add_bounded(alloc, all, relation, &b.dir, b.bound.checked_sub(1))
}

// Adds the literals of both relations with a bound, and the ones that say that it is not met.
fn add_both_ways(alloc: Global, all: &mut Collection<'_>, b: &Bound) -> Result<(), NoMemory> {
    add_bounded(alloc, all, Rel::Ge, &b.dir, Some(b.bound))?;
    add_bounded(alloc, all, Rel::Ge, &b.dir, b.bound.checked_add(1))?;
    add_bounded(alloc, all, Rel::Le, &b.dir, Some(b.bound))?;
    add_bounded(alloc, all, Rel::Le, &b.dir, b.bound.checked_sub(1))
}

// Adds the bounds near a literal: those 1 more and 1 less; and both ways where it says that numbers are equal, or are not.
fn add_moved(alloc: Global, all: &mut Collection<'_>, b: &Bound) -> Result<(), NoMemory> {
    match b.kind {
        Kind::Ge => add_beside(alloc, all, Rel::Ge, b),
        Kind::Le => add_beside(alloc, all, Rel::Le, b),
        Kind::Eq | Kind::Ne => add_both_ways(alloc, all, b),
    }
}

// Adds a literal and those with a bound beside its own.
fn add_near(alloc: Global, all: &mut Collection<'_>, l: NLit) -> Result<(), NoMemory> {
    if let NLit::Is(b) = &l {
        add_moved(alloc, all, b)?;
    }
    all.add_literal(alloc, l)
}

// Adds a literal and its negation.
fn add_both(alloc: Global, all: &mut Collection<'_>, l: NLit) -> Result<(), NoMemory> {
    add_near(alloc, all, l.try_clone(alloc)?)?;
    add_near(alloc, all, negate(l))
}

// Adds the literal that two numbers are in a relation.
fn add_related(
    alloc: Global,
    all: &mut Collection<'_>,
    relation: Rel,
    left: &Poly,
    right: &Poly,
) -> Result<(), NoMemory> {
    match literal(alloc, relation, left, right) {
        Ok(found) => add_both(alloc, all, found),
        Err(stop) => leave_out(stop),
    }
}

/// The values of two expressions.
pub(crate) fn evaluate_both(
    alloc: Global,
    side: Side,
    own: &Vector,
    left: &Expr<VarId>,
    right: &Expr<VarId>,
) -> Result<(Poly, Poly), NfStop> {
    let left = evaluate(alloc, side, own, left)?;
    let right = evaluate(alloc, side, own, right)?;
    Ok((left, right))
}

// Adds the terms in a literal of a guard, and the literal.
fn add_literal(
    alloc: Global,
    all: &mut Collection<'_>,
    side: Side,
    l: &Lit<VarId>,
) -> Result<(), NoMemory> {
    add_expr(alloc, all, side, &l.left)?;
    add_expr(alloc, all, side, &l.right)?;
    match evaluate_both(alloc, side, all.own_symbols(), &l.left, &l.right) {
        Ok((left, right)) => add_related(alloc, all, l.rel, &left, &right),
        Err(stop) => leave_out(stop),
    }
}

/// Adds the literals of a branch and the terms in them. The one refusal is out of memory.
pub(crate) fn add_literals(
    alloc: Global,
    all: &mut Collection<'_>,
    side: Side,
    literals: &[Rc<Lit<VarId>>],
) -> Result<(), NoMemory> {
    for l in literals {
        add_literal(alloc, all, side, l)?;
    }
    Ok(())
}
