//! The terms and the literals of two machines.

use crate::cells::add_cells;
use crate::collection::Collection;
use crate::given_numbers::add_at_given_numbers;
use crate::moved_reads::add_moved_reads;
use crate::stop::leave_out;
use crate::subterms::{add_expr, add_literals, evaluate_both};
use fs_ast::machine::Machine;
use fs_model::parts::{Assign, Branch, Expr, StateId, VarId};
use fs_pair::positions::Pairing;
use nf_arrays::writes::write;
use nf_rel::literals::NLit;
use nf_terms::arr::Arr;
use nf_terms::form::Nf;
use nf_terms::poly::Poly;
use nf_terms::seq::Seq;
use nf_terms::stop::NoMemory;
use nf_terms::tree::SeqBase;
use nf_trees::tree::{Base, Pos, Side};
use std::alloc::Global;
use sym_facts::fact::own_symbol;

/// A term over the symbols of positions, and the places of the positions that it mentions.
#[derive(Drop)]
pub struct Term {
    pub form: Nf,
    pub places: Vec<usize>,
}

/// A literal over the symbols of positions, and the places of the positions that it mentions.
#[derive(Drop)]
pub struct Condition {
    pub literal: NLit,
    pub places: Vec<usize>,
}

/// Terms and literals that may hold between two machines, none of them twice. The first terms are the symbols of the positions,
/// in order.
#[derive(Drop)]
pub struct Universe {
    pub terms: Vec<Term>,
    pub literals: Vec<Condition>,
}

// Adds the symbols of all positions.
fn add_positions(alloc: Global, all: &mut Collection<'_>) -> Result<(), NoMemory> {
    let positions = all.positions();
    for position in positions {
        let symbol = own_symbol(alloc, position.sort, position.pos)?;
        all.add_form(alloc, symbol)?;
    }
    Ok(())
}

// Adds 0, the array that is 0 everywhere, and the empty list.
fn add_zeros(alloc: Global, all: &mut Collection<'_>) -> Result<(), NoMemory> {
    all.add_form(alloc, Nf::Num(Poly::number(alloc, 0)?))?;
    all.add_form(alloc, Nf::Arr(Arr::bare(alloc, Base::Zero)))?;
    all.add_form(alloc, Nf::Seq(Seq::bare(alloc, SeqBase::Empty)))
}

// Adds the array of a position after a write.
fn add_write(
    alloc: Global,
    all: &mut Collection<'_>,
    base: Pos,
    index: &Poly,
    value: &Poly,
) -> Result<(), NoMemory> {
    let array = Arr::bare(alloc, Base::Sym(base));
    match write(alloc, &array, index, value) {
        Ok(written) => all.add_form(alloc, Nf::Arr(written)),
        Err(stop) => leave_out(stop),
    }
}

/// Adds the arrays of a name, of either side, after a write. The one refusal is out of memory.
pub(crate) fn add_writes(
    alloc: Global,
    all: &mut Collection<'_>,
    array: Pos,
    index: &Poly,
    value: &Poly,
) -> Result<(), NoMemory> {
    add_write(alloc, all, array, index, value)?;
    match all.partner(array) {
        Some(partner) => add_write(alloc, all, partner, index, value),
        None => Ok(()),
    }
}

// Adds the arrays that a write leaves.
fn add_put(
    alloc: Global,
    all: &mut Collection<'_>,
    array: Pos,
    i: &Expr<VarId>,
    e: &Expr<VarId>,
) -> Result<(), NoMemory> {
    match evaluate_both(alloc, array.side, all.own_symbols(), i, e) {
        Ok((index, value)) => add_writes(alloc, all, array, &index, &value),
        Err(stop) => leave_out(stop),
    }
}

// Adds what an assignment has.
fn add_assign(
    alloc: Global,
    all: &mut Collection<'_>,
    side: Side,
    assign: &Assign<VarId>,
) -> Result<(), NoMemory> {
    match assign {
        Assign::Set(_, e) | Assign::Emit(_, e) => add_expr(alloc, all, side, e),
        Assign::Put(x, i, e) => {
            add_expr(alloc, all, side, i)?;
            add_expr(alloc, all, side, e)?;
            add_put(alloc, all, Pos { side, var: x.0 }, i, e)
        }
    }
}

// Adds what assignments have.
fn add_assigns(
    alloc: Global,
    all: &mut Collection<'_>,
    side: Side,
    assigns: &[Assign<VarId>],
) -> Result<(), NoMemory> {
    for assign in assigns {
        add_assign(alloc, all, side, assign)?;
    }
    Ok(())
}

// Adds what branches have.
fn add_branches(
    alloc: Global,
    all: &mut Collection<'_>,
    side: Side,
    branches: &[Branch],
) -> Result<(), NoMemory> {
    for branch in branches {
        add_literals(alloc, all, side, branch.lits.as_slice())?;
        add_assigns(alloc, all, side, branch.assigns.as_slice())?;
    }
    Ok(())
}

// Adds what a machine has.
fn add_machine(
    alloc: Global,
    all: &mut Collection<'_>,
    side: Side,
    m: &Machine,
) -> Result<(), NoMemory> {
    for state in 0..m.state_count() {
        add_branches(alloc, all, side, m.branches(StateId(state)))?;
    }
    Ok(())
}

// Adds the symbols of positions, 0 of each sort, and what two machines have.
fn add_all(
    alloc: Global,
    all: &mut Collection<'_>,
    a: &Machine,
    b: &Machine,
) -> Result<(), NoMemory> {
    add_positions(alloc, all)?;
    add_zeros(alloc, all)?;
    add_machine(alloc, all, Side::Left, a)?;
    add_machine(alloc, all, Side::Right, b)?;
    add_cells(alloc, all, Side::Left, a)?;
    add_cells(alloc, all, Side::Right, b)?;
    add_moved_reads(alloc, all)?;
    add_at_given_numbers(alloc, all, Side::Left, a)?;
    add_at_given_numbers(alloc, all, Side::Right, b)
}

/// The universe of two machines: the symbols of their positions; 0, the array that is 0 everywhere and the empty list; each
/// term of a right side, an index or a guard that has an operator, in its machine's symbols; for each write the arrays of its
/// name, of either machine, after it; the arrays into which a scalar is written back that keeps an entry; reads beside those of
/// the texts; each literal of a guard and its negation, and of `>=` and `<=` also the ones whose bound is 1 more or less, of `==`
/// and `!=` both bounds; and each literal where a variable has a number that its machine gives it. The left machine's come first.
/// Terms past a limit are left out, and so are those behind the first 4,096 terms and the first 4,096 literals, and behind the
/// first 16,384 that are looked at. The one refusal is out of memory.
pub fn universe_of(
    alloc: Global,
    a: &Machine,
    b: &Machine,
    p: &Pairing,
) -> Result<Universe, NoMemory> {
    let mut all = Collection::new(alloc, p.positions());
    match add_all(alloc, &mut all, a, b) {
        Ok(()) => Ok(all.into_universe()),
        Err(refused) => Err(refused),
    }
}
