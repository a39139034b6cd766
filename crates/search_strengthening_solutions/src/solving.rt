//! Equations between two values, solved for a free position.

use crate::solution::Solution;
use fs_model::parts::Role;
use fs_pair::positions::Position;
use nf_sums::sums::{add, sub};
use nf_terms::form::Nf;
use nf_terms::poly::Poly;
use nf_terms::stop::NoMemory;
use nf_terms::tree::SeqBase;
use nf_trees::tree::{Atom, Base, MonoTree, Pos};
use search_strengthening_terms::stop::unless_stopped;
use std::alloc::Global;

/// A free position, and what it is equal to.
#[derive(Drop)]
pub struct Solved {
    pub pos: Pos,
    pub form: Nf,
}

// Whether a position is an input.
fn is_input(positions: &[Position], pos: Pos) -> bool {
    for position in positions {
        if position.pos == pos {
            return position.role == Role::Input;
        }
    }
    false
}

// Whether equations are solved for a position: it is free and no input.
fn is_unknown(positions: &[Position], solution: &Solution, pos: Pos) -> bool {
    solution.is_free(pos) && !is_input(positions, pos)
}

// The symbol that a monomial is, where its coefficient is 1 or -1.
fn unit_symbol(mono: &MonoTree, coefficient: &i128) -> Option<Pos> {
    if *coefficient != 1 && *coefficient != -1 {
        return None;
    }
    match mono.atoms.as_slice() {
        [Atom::Sym(p)] => Some(*p),
        _ => None,
    }
}

// What a symbol is equal to where a number is 0, in which it stands with this coefficient, or none where it meets a limit.
fn symbol_value(
    alloc: Global,
    number: &Poly,
    pos: Pos,
    coefficient: &i128,
) -> Result<Option<Poly>, NoMemory> {
    let symbol = Poly::symbol(alloc, pos)?;
    if *coefficient == 1 {
        unless_stopped(sub(alloc, &symbol, number))
    } else {
        unless_stopped(add(alloc, number, &symbol))
    }
}

// What a symbol is equal to where a number is 0, in which it stands with this coefficient and nowhere else.
fn solve_for(
    alloc: Global,
    number: &Poly,
    pos: Pos,
    coefficient: &i128,
) -> Result<Option<Solved>, NoMemory> {
    match symbol_value(alloc, number, pos, coefficient)? {
        Some(value) => {
            if value.mentions(pos) {
                Ok(None)
            } else {
                let form = Nf::Num(value);
                Ok(Some(Solved { pos, form }))
            }
        }
        None => Ok(None),
    }
}

// The first free position for which a number that is 0 is solved.
fn solved_number(
    alloc: Global,
    positions: &[Position],
    solution: &Solution,
    number: &Poly,
) -> Result<Option<Solved>, NoMemory> {
    for (mono, coefficient) in number.monos() {
        if let Some(pos) = unit_symbol(mono, coefficient) {
            if is_unknown(positions, solution, pos) {
                if let Some(solved) = solve_for(alloc, number, pos, coefficient)? {
                    return Ok(Some(solved));
                }
            }
        }
    }
    Ok(None)
}

// The symbol that an array or a list is.
fn whole_symbol(form: &Nf) -> Option<Pos> {
    match form {
        Nf::Num(_) => None,
        Nf::Arr(array) => match array.base() {
            Base::Sym(p) if array.writes().is_empty() => Some(p),
            _ => None,
        },
        Nf::Seq(list) => match list.base() {
            SeqBase::Sym(p) if list.items().is_empty() => Some(p),
            _ => None,
        },
    }
}

// An array or a list that is a free position, where the other one does not mention it.
fn solved_symbol(
    alloc: Global,
    positions: &[Position],
    solution: &Solution,
    form: &Nf,
    other: &Nf,
) -> Result<Option<Solved>, NoMemory> {
    match whole_symbol(form) {
        Some(pos) if is_unknown(positions, solution, pos) && !other.mentions(pos) => {
            let form = other.try_clone(alloc)?;
            Ok(Some(Solved { pos, form }))
        }
        _ => Ok(None),
    }
}

/// What a free position is equal to where two values are equal: a number that stands in their difference alone, with the
/// coefficient 1 or -1, or an array or a list that one of them is and the other does not mention. None where no such position
/// is free, or it is an input. The one refusal is out of memory.
pub fn solve(
    alloc: Global,
    positions: &[Position],
    solution: &Solution,
    left: &Nf,
    right: &Nf,
) -> Result<Option<Solved>, NoMemory> {
    if let (Nf::Num(l), Nf::Num(r)) = (left, right) {
        return match unless_stopped(sub(alloc, l, r))? {
            Some(difference) => solved_number(alloc, positions, solution, &difference),
            None => Ok(None),
        };
    }
    if let Some(solved) = solved_symbol(alloc, positions, solution, left, right)? {
        return Ok(Some(solved));
    }
    solved_symbol(alloc, positions, solution, right, left)
}
