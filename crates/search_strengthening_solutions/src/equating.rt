//! Terms of one class get equal values.

use crate::solution::{Solution, position_value};
use crate::solving::{Solved, solve};
use fs_pair::positions::Position;
use nf_substitution::subst::Subst;
use nf_substitution::vector::Vector;
use nf_terms::form::Nf;
use nf_terms::stop::NoMemory;
use nf_terms::tree::Pos;
use search_strengthening_claims::claims::{Claims, class_at, form_at};
use search_strengthening_claims::weeding::value_of;
use search_strengthening_terms::stop::Stop;
use search_strengthening_terms::universe::Universe;
use search_strengthening_terms::work::Work;
use std::alloc::Global;

// The value of a term that is in a class.
fn term_value(
    alloc: Global,
    work: &mut Work,
    universe: &Universe,
    claims: &Claims,
    s: &mut Subst<'_>,
    place: usize,
) -> Result<Option<Nf>, Stop> {
    match (class_at(claims, place), form_at(universe, claims, place)) {
        (Some(_), Some(form)) => value_of(alloc, work, s, form),
        _ => Ok(None),
    }
}

// The values of terms with a substitution, none of those that are out.
fn values_by(
    alloc: Global,
    work: &mut Work,
    universe: &Universe,
    claims: &Claims,
    s: &mut Subst<'_>,
) -> Result<Vec<Option<Nf>>, Stop> {
    let mut values = Vec::new(alloc);
    for place in 0..claims.classes.len() {
        values.push(term_value(alloc, work, universe, claims, s, place)?)?;
    }
    Ok(values)
}

// The values of terms, none of those that are out.
fn term_values(
    alloc: Global,
    work: &mut Work,
    universe: &Universe,
    claims: &Claims,
    solution: &Solution,
) -> Result<Vec<Option<Nf>>, Stop> {
    let mut s = Subst::new(alloc, &solution.values);
    values_by(alloc, work, universe, claims, &mut s)
}

// The value at a place.
fn value_at(values: &[Option<Nf>], place: usize) -> Option<&Nf> {
    match values.get(place) {
        Some(Some(value)) => Some(value),
        Some(None) | None => None,
    }
}

// What a free position is equal to where a term has the value of the first one of its class.
fn solve_at(
    alloc: Global,
    positions: &[Position],
    claims: &Claims,
    solution: &Solution,
    values: &[Option<Nf>],
    place: usize,
) -> Result<Option<Solved>, NoMemory> {
    let Some(first) = class_at(claims, place) else {
        return Ok(None);
    };
    match (value_at(values, first), value_at(values, place)) {
        (Some(left), Some(right)) if !left.is_same(right) => {
            solve(alloc, positions, solution, left, right)
        }
        _ => Ok(None),
    }
}

// Whether a value is a number.
fn is_number(value: &Option<Nf>) -> bool {
    matches!(value, Some(Nf::Num(_)))
}

// Whether what a position is equal to can be put in its place together with the others: no two of them are for one position,
// and none mentions the position of another.
fn is_beside(all: &[Solved], solved: &Solved) -> bool {
    for other in all {
        if other.pos == solved.pos
            || other.form.mentions(solved.pos)
            || solved.form.mentions(other.pos)
        {
            return false;
        }
    }
    true
}

// Adds what a free position is equal to, unless it cannot be put in its place together with the others.
fn push_beside(all: &mut Vec<Solved>, found: Option<Solved>) -> Result<(), NoMemory> {
    match found {
        Some(solved) if is_beside(all.as_slice(), &solved) => all.push(solved)?,
        _ => {}
    }
    Ok(())
}

// What free positions are equal to for which equations of two numbers are solved, or of two arrays or lists.
fn find_solved(
    alloc: Global,
    positions: &[Position],
    claims: &Claims,
    solution: &Solution,
    values: &[Option<Nf>],
    numbers: bool,
) -> Result<Vec<Solved>, NoMemory> {
    let mut all = Vec::new(alloc);
    for (place, value) in values.iter().enumerate() {
        if is_number(value) == numbers {
            let found = solve_at(alloc, positions, claims, solution, values, place)?;
            push_beside(&mut all, found)?;
        }
    }
    Ok(all)
}

// The same of all terms, of arrays and lists first: a number that is solved for may stand in the value of one of these.
fn find_solved_in_order(
    alloc: Global,
    positions: &[Position],
    claims: &Claims,
    solution: &Solution,
    values: &[Option<Nf>],
) -> Result<Vec<Solved>, NoMemory> {
    let all = find_solved(alloc, positions, claims, solution, values, false)?;
    if !all.is_empty() {
        return Ok(all);
    }
    find_solved(alloc, positions, claims, solution, values, true)
}

// The value of a form with a substitution. `Bound` comes where it meets a limit.
fn needed_value(alloc: Global, work: &mut Work, s: &mut Subst<'_>, form: &Nf) -> Result<Nf, Stop> {
    match value_of(alloc, work, s, form)? {
        Some(value) => Ok(value),
        None => Err(Stop::Bound),
    }
}

// The value of a position over the positions that stay free. `Bound` comes where it meets a limit.
fn replaced_value(
    alloc: Global,
    work: &mut Work,
    s: &mut Subst<'_>,
    solution: &Solution,
    position: &Position,
) -> Result<Nf, Stop> {
    let value = position_value(alloc, solution, position)?;
    needed_value(alloc, work, s, &value)
}

// Puts the values of positions over the positions that stay free.
fn put_replaced(
    alloc: Global,
    work: &mut Work,
    positions: &[Position],
    solution: &Solution,
    s: &mut Subst<'_>,
    values: &mut Vector,
) -> Result<(), Stop> {
    for position in positions {
        let value = replaced_value(alloc, work, s, solution, position)?;
        values.put(position.pos, value)?;
    }
    Ok(())
}

// The values of positions.
fn values_of(alloc: Global, all: Vec<Solved>) -> Result<Vector, NoMemory> {
    let mut values = Vector::new(alloc);
    for solved in all {
        values.put(solved.pos, solved.form)?;
    }
    Ok(values)
}

// Puts the values of positions over the positions that stay free, where what some are equal to is put in their places.
fn put_solved(
    alloc: Global,
    work: &mut Work,
    positions: &[Position],
    solution: &Solution,
    all: Vec<Solved>,
    values: &mut Vector,
) -> Result<(), Stop> {
    let only = values_of(alloc, all)?;
    let mut s = Subst::new(alloc, &only);
    put_replaced(alloc, work, positions, solution, &mut s, values)
}

// Takes a position from the free ones.
fn note_solved(solution: &mut Solution, pos: Pos) {
    solution.free.retain(|other| *other != pos);
}

// Takes positions from the free ones.
fn note_all_solved(solution: &mut Solution, all: &[Solved]) {
    for solved in all {
        note_solved(solution, solved.pos);
    }
}

// Puts what free positions are equal to in their places.
fn replace(
    alloc: Global,
    work: &mut Work,
    positions: &[Position],
    solution: &mut Solution,
    all: Vec<Solved>,
) -> Result<(), Stop> {
    note_all_solved(solution, all.as_slice());
    let mut values = Vector::new(alloc);
    put_solved(alloc, work, positions, solution, all, &mut values)?;
    solution.values = values;
    Ok(())
}

// What free positions are equal to where terms of one class have different values.
fn next_solved(
    alloc: Global,
    work: &mut Work,
    universe: &Universe,
    positions: &[Position],
    claims: &Claims,
    solution: &Solution,
) -> Result<Vec<Solved>, Stop> {
    let values = term_values(alloc, work, universe, claims, solution)?;
    Ok(find_solved_in_order(alloc, positions, claims, solution, values.as_slice())?)
}

/// While two terms of a class have different values, solves such equations for free positions, and puts what these are equal
/// to in their places. `Bound` comes where too little work is left, or a value meets a limit.
pub fn equate(
    alloc: Global,
    work: &mut Work,
    universe: &Universe,
    positions: &[Position],
    claims: &Claims,
    solution: &mut Solution,
) -> Result<(), Stop> {
    for _ in positions {
        let all = next_solved(alloc, work, universe, positions, claims, solution)?;
        if all.is_empty() {
            return Ok(());
        }
        replace(alloc, work, positions, solution, all)?;
    }
    Ok(())
}
