//! Literals of guards where a variable has a number that its machine gives it: what a loop asks when it is entered.

use crate::collection::Collection;
use crate::stop::leave_out;
use crate::subterms::evaluate_both;
use fs_ast::machine::Machine;
use fs_model::parts::{Assign, Branch, Expr, Lit, StateId, VarId};
use nf_rel::clashes::negate;
use nf_rel::literals::NLit;
use nf_rel::normalize::literal;
use nf_sums::sums::number;
use nf_terms::form::Nf;
use nf_terms::poly::Poly;
use nf_terms::stop::{NfStop, NoMemory};
use nf_terms::tree::{Pos, Side};
use nf_vectors::vector::Vector;
use std::alloc::Global;

// The most numbers that are looked at, a machine.
const NUMBER_LIMIT: usize = 16;

// A variable and a number that its machine gives it.
#[derive(Clone, Copy, PartialEq, Eq)]
struct Given {
    var: VarId,
    number: i128,
}

// Adds the number that an assignment gives a variable, unless it is there, or there are enough.
fn add_given(given: &mut Vec<Given>, assign: &Assign<VarId>) -> Result<(), NoMemory> {
    let Assign::Set(var, Expr::Num(number)) = assign else {
        return Ok(());
    };
    let found = Given {
        var: *var,
        number: *number,
    };
    if given.len() < NUMBER_LIMIT && !given.contains(&found) {
        given.push(found)?;
    }
    Ok(())
}

// Adds the numbers that branches give variables.
fn add_all_given(given: &mut Vec<Given>, branches: &[Branch]) -> Result<(), NoMemory> {
    for branch in branches {
        for assign in branch.assigns.as_slice() {
            add_given(given, assign)?;
        }
    }
    Ok(())
}

// The vector in which a variable of a side has a number, and each other one its own symbol.
fn vector_with(alloc: Global, side: Side, given: &Given) -> Result<Vector, NfStop> {
    let mut vector = Vector::new(alloc);
    let pos = Pos {
        side,
        var: given.var.0,
    };
    vector.put(pos, Nf::Num(number(alloc, &given.number)?))?;
    Ok(vector)
}

// Adds the literal of two values and its negation.
fn add_bounds(
    alloc: Global,
    all: &mut Collection<'_>,
    found: Result<NLit, NfStop>,
) -> Result<(), NoMemory> {
    match found {
        Ok(found) => {
            all.add_literal(alloc, negate(found.try_clone(alloc)?))?;
            all.add_literal(alloc, found)
        }
        Err(stop) => leave_out(stop),
    }
}

// Whether two pairs of values are the same.
fn are_same(own: &(Poly, Poly), values: &(Poly, Poly)) -> bool {
    own.0 == values.0 && own.1 == values.1
}

// Adds the literal of a guard under a vector, unless it is its own.
fn add_literal(
    alloc: Global,
    all: &mut Collection<'_>,
    side: Side,
    v: &Vector,
    l: &Lit<VarId>,
) -> Result<(), NoMemory> {
    let own = match evaluate_both(alloc, side, all.own_symbols(), &l.left, &l.right) {
        Ok(own) => own,
        Err(stop) => return leave_out(stop),
    };
    let values = match evaluate_both(alloc, side, v, &l.left, &l.right) {
        Ok(values) => values,
        Err(stop) => return leave_out(stop),
    };
    if are_same(&own, &values) {
        return Ok(());
    }
    add_bounds(alloc, all, literal(alloc, l.rel, &values.0, &values.1))
}

// Adds the literals of branches under a vector.
fn add_literals(
    alloc: Global,
    all: &mut Collection<'_>,
    side: Side,
    v: &Vector,
    branches: &[Branch],
) -> Result<(), NoMemory> {
    for branch in branches {
        for l in branch.lits.as_slice() {
            add_literal(alloc, all, side, v, l)?;
        }
    }
    Ok(())
}

// Adds the literals of a machine where a variable has a number.
fn add_at_number(
    alloc: Global,
    all: &mut Collection<'_>,
    side: Side,
    m: &Machine,
    given: &Given,
) -> Result<(), NoMemory> {
    let vector = match vector_with(alloc, side, given) {
        Ok(vector) => vector,
        Err(stop) => return leave_out(stop),
    };
    for state in 0..m.state_count() {
        add_literals(alloc, all, side, &vector, m.branches(StateId(state)))?;
    }
    Ok(())
}

// The first numbers that a machine gives its variables.
fn numbers_given(alloc: Global, m: &Machine) -> Result<Vec<Given>, NoMemory> {
    let mut given = Vec::new(alloc);
    for state in 0..m.state_count() {
        add_all_given(&mut given, m.branches(StateId(state)))?;
    }
    Ok(given)
}

/// Adds the literals of a machine's guards, and their negations, where a variable has one of the first 16 numbers that the
/// machine gives its variables. The one refusal is out of memory.
pub(crate) fn add_at_given_numbers(
    alloc: Global,
    all: &mut Collection<'_>,
    side: Side,
    m: &Machine,
) -> Result<(), NoMemory> {
    for given in &numbers_given(alloc, m)? {
        add_at_number(alloc, all, side, m, given)?;
    }
    Ok(())
}
