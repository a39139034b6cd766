//! Arrays of which an entry is kept in a scalar: what a machine would leave if it wrote the scalar back.

use crate::collection::Collection;
use crate::stop::leave_out;
use crate::universe::add_writes;
use fs_ast::machine::Machine;
use fs_model::parts::{Assign, Branch, Expr, StateId, VarId};
use nf_terms::poly::Poly;
use nf_terms::stop::NoMemory;
use nf_terms::tree::{Pos, Side};
use std::alloc::Global;
use sym_facts::evaluation::evaluate;

// The most scalars that are taken for copies of one.
const COPY_LIMIT: usize = 8;

// An entry of an array that is loaded into a scalar, or stored from one.
#[derive(Drop)]
struct Cell {
    array: VarId,
    index: Poly,
    scalar: VarId,
}

// The cells of a machine, and which scalars are assigned to which.
#[derive(Drop)]
struct Cells {
    side: Side,
    cells: Vec<Cell>,
    copies: Vec<(VarId, VarId)>,
}

// Adds a cell, unless its index meets a limit.
fn add_cell(
    alloc: Global,
    all: &Collection<'_>,
    found: &mut Cells,
    array: VarId,
    index: &Expr<VarId>,
    scalar: VarId,
) -> Result<(), NoMemory> {
    match evaluate(alloc, found.side, all.own_symbols(), index) {
        Ok(index) => Ok(
            found.cells.push(Cell {
                array,
                index,
                scalar,
            })?,
        ),
        Err(stop) => leave_out(stop),
    }
}

// Adds what an assignment loads, stores or copies.
fn add_assign(
    alloc: Global,
    all: &Collection<'_>,
    found: &mut Cells,
    assign: &Assign<VarId>,
) -> Result<(), NoMemory> {
    match assign {
        Assign::Set(x, Expr::Read(array, index)) => add_cell(alloc, all, found, *array, index, *x),
        Assign::Set(x, Expr::Var(y)) => Ok(found.copies.push((*x, *y))?),
        Assign::Put(array, index, Expr::Var(y)) => add_cell(alloc, all, found, *array, index, *y),
        Assign::Set(..) | Assign::Put(..) | Assign::Emit(..) => Ok(()),
    }
}

// Adds what the assignments of branches load, store or copy.
fn add_branches(
    alloc: Global,
    all: &Collection<'_>,
    found: &mut Cells,
    branches: &[Branch],
) -> Result<(), NoMemory> {
    for branch in branches {
        for assign in branch.assigns.as_slice() {
            add_assign(alloc, all, found, assign)?;
        }
    }
    Ok(())
}

// What a machine loads, stores and copies.
fn cells_of(
    alloc: Global,
    all: &Collection<'_>,
    side: Side,
    m: &Machine,
) -> Result<Cells, NoMemory> {
    let mut found = Cells {
        side,
        cells: Vec::new(alloc),
        copies: Vec::new(alloc),
    };
    for state in 0..m.state_count() {
        add_branches(alloc, all, &mut found, m.branches(StateId(state)))?;
    }
    Ok(found)
}

// Adds the scalar on the other end of a copy, if one end is there and the other is not.
fn add_end(scalars: &mut Vec<VarId>, copy: (VarId, VarId)) -> Result<(), NoMemory> {
    let (x, y) = copy;
    match (scalars.contains(&x), scalars.contains(&y)) {
        (true, false) if scalars.len() < COPY_LIMIT => scalars.push(y)?,
        (false, true) if scalars.len() < COPY_LIMIT => scalars.push(x)?,
        _ => {}
    }
    Ok(())
}

// A scalar, and those that are copies of it, or of copies of it.
fn copies_of(
    alloc: Global,
    copies: &[(VarId, VarId)],
    scalar: VarId,
) -> Result<Vec<VarId>, NoMemory> {
    let mut scalars = Vec::new(alloc);
    scalars.push(scalar)?;
    for _ in 0..2 {
        for copy in copies {
            add_end(&mut scalars, *copy)?;
        }
    }
    Ok(scalars)
}

// Adds the arrays, of either machine, into which a scalar is written where a cell is.
fn add_kept(
    alloc: Global,
    all: &mut Collection<'_>,
    side: Side,
    cell: &Cell,
    scalar: VarId,
) -> Result<(), NoMemory> {
    let array = Pos {
        side,
        var: cell.array.0,
    };
    let symbol = Poly::symbol(
        alloc,
        Pos {
            side,
            var: scalar.0,
        },
    )?;
    add_writes(alloc, all, array, &cell.index, &symbol)
}

// Adds the arrays, of either machine, into which copies of what a cell has are written there, unless the array is an input.
fn add_copies(
    alloc: Global,
    all: &mut Collection<'_>,
    found: &Cells,
    cell: &Cell,
) -> Result<(), NoMemory> {
    let array = Pos {
        side: found.side,
        var: cell.array.0,
    };
    if all.is_input(array) {
        return Ok(());
    }
    for scalar in &copies_of(alloc, found.copies.as_slice(), cell.scalar)? {
        add_kept(alloc, all, found.side, cell, *scalar)?;
    }
    Ok(())
}

/// Adds the arrays, of either machine, into which a scalar of one is written at an index at which that machine loads it, stores
/// it, or does so with a copy of it. The one refusal is out of memory.
pub(crate) fn add_cells(
    alloc: Global,
    all: &mut Collection<'_>,
    side: Side,
    m: &Machine,
) -> Result<(), NoMemory> {
    let found = cells_of(alloc, all, side, m)?;
    for cell in &found.cells {
        add_copies(alloc, all, &found, cell)?;
    }
    Ok(())
}
