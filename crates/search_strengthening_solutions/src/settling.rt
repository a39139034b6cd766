//! The positions of each class get one value.

use crate::constants::{Constants, constants_of};
use crate::solution::Solution;
use fs_model::parts::{Role, Sort};
use fs_pair::positions::Position;
use nf_substitution::subst::Subst;
use nf_terms::form::Nf;
use nf_terms::stop::NoMemory;
use nf_terms::tree::Side;
use search_strengthening_claims::claims::{Claims, class_at, form_at};
use search_strengthening_claims::weeding::value_of;
use search_strengthening_terms::stop::Stop;
use search_strengthening_terms::universe::{Term, Universe};
use search_strengthening_terms::work::Work;
use std::alloc::Global;
use sym_facts::fact::own_symbol;

// Gives all positions of a class a value.
fn give_value(
    alloc: Global,
    positions: &[Position],
    claims: &Claims,
    class: usize,
    value: &Nf,
    solution: &mut Solution,
) -> Result<(), NoMemory> {
    for (place, position) in positions.iter().enumerate() {
        if class_at(claims, place) == Some(class) && !solution.is_known(place) {
            solution.values.put(position.pos, value.try_clone(alloc)?)?;
            solution.note_known(place);
        }
    }
    Ok(())
}

// Whether all these places are of known positions.
fn all_known(solution: &Solution, places: &[usize]) -> bool {
    for place in places {
        if !solution.is_known(*place) {
            return false;
        }
    }
    true
}

// The class of a term, where it has positions and none of them is known.
fn unknown_class(
    positions: &[Position],
    claims: &Claims,
    solution: &Solution,
    place: usize,
) -> Option<usize> {
    let class = class_at(claims, place)?;
    if class < positions.len() && !solution.is_known(class) {
        Some(class)
    } else {
        None
    }
}

// The value of a form over known positions.
fn told_value(
    alloc: Global,
    work: &mut Work,
    solution: &Solution,
    form: &Nf,
) -> Result<Option<Nf>, Stop> {
    let mut s = Subst::new(alloc, &solution.values);
    value_of(alloc, work, &mut s, form)
}

// Gives the class of a term the value of its form, if it has one. Answers whether it has.
fn give_told(
    alloc: Global,
    work: &mut Work,
    positions: &[Position],
    claims: &Claims,
    solution: &mut Solution,
    class: usize,
    form: &Nf,
) -> Result<bool, Stop> {
    match told_value(alloc, work, solution, form)? {
        Some(value) => {
            give_value(alloc, positions, claims, class, &value, solution)?;
            Ok(true)
        }
        None => Ok(false),
    }
}

// Makes the class of a term of the universe known by the term, where all that this mentions is known. Answers whether it did.
fn tell(
    alloc: Global,
    work: &mut Work,
    positions: &[Position],
    claims: &Claims,
    solution: &mut Solution,
    place: usize,
    term: &Term,
) -> Result<bool, Stop> {
    match unknown_class(positions, claims, solution, place) {
        Some(class) if all_known(solution, term.places.as_slice()) => {
            work.spend(1)?;
            give_told(alloc, work, positions, claims, solution, class, &term.form)
        }
        _ => Ok(false),
    }
}

// Goes over the terms of the universe that are no positions and no constants once. Answers whether a class became known.
fn tell_once(
    alloc: Global,
    work: &mut Work,
    universe: &Universe,
    positions: &[Position],
    claims: &Claims,
    solution: &mut Solution,
) -> Result<bool, Stop> {
    let mut changed = false;
    for (place, term) in universe.terms.iter().enumerate() {
        if positions.len() <= place
            && !term.places.is_empty()
            && class_at(claims, place).is_some()
            && tell(alloc, work, positions, claims, solution, place, term)?
        {
            changed = true;
        }
    }
    Ok(changed)
}

// Makes the class of a constant known by it. Answers whether it did.
fn tell_constant(
    alloc: Global,
    work: &mut Work,
    universe: &Universe,
    positions: &[Position],
    claims: &Claims,
    solution: &mut Solution,
    place: usize,
) -> Result<bool, Stop> {
    let Some(form) = form_at(universe, claims, place) else {
        return Ok(false);
    };
    match unknown_class(positions, claims, solution, place) {
        Some(class) => give_told(alloc, work, positions, claims, solution, class, form),
        None => Ok(false),
    }
}

// Goes over constants once, of all classes or only of those that do not wait. Answers whether a class became known.
fn tell_constants(
    alloc: Global,
    work: &mut Work,
    universe: &Universe,
    positions: &[Position],
    claims: &Claims,
    solution: &mut Solution,
    constants: &Constants,
    all: bool,
) -> Result<bool, Stop> {
    let mut changed = false;
    for constant in &constants.all {
        if (all || !constant.waits)
            && tell_constant(
                alloc,
                work,
                universe,
                positions,
                claims,
                solution,
                constant.place,
            )?
        {
            changed = true;
        }
    }
    Ok(changed)
}

// Makes classes known until no term tells one, and no constant of a class that does not wait.
fn tell_all(
    alloc: Global,
    work: &mut Work,
    universe: &Universe,
    positions: &[Position],
    claims: &Claims,
    solution: &mut Solution,
    constants: &Constants,
) -> Result<(), Stop> {
    for _ in positions {
        if !tell_once(alloc, work, universe, positions, claims, solution)?
            && !tell_constants(
                alloc, work, universe, positions, claims, solution, constants, false,
            )?
        {
            return Ok(());
        }
    }
    Ok(())
}

// Whether the class of the position at a place has a position of the other side.
fn is_shared(positions: &[Position], claims: &Claims, place: usize, side: Side) -> bool {
    let class = class_at(claims, place);
    for (other, position) in positions.iter().enumerate() {
        if position.pos.side != side && class_at(claims, other) == class {
            return true;
        }
    }
    false
}

// Which positions are freed first.
#[derive(Clone, Copy)]
enum Choice {
    LeftInputs,
    Shared,
    Number,
    Any,
}

// Whether a position is of a choice: a left input, one with a position of the other side in its class, or a number.
fn is_of(
    choice: Choice,
    positions: &[Position],
    claims: &Claims,
    place: usize,
    p: &Position,
) -> bool {
    match choice {
        Choice::LeftInputs => p.role == Role::Input && p.pos.side == Side::Left,
        Choice::Shared => is_shared(positions, claims, place, p.pos.side),
        Choice::Number => p.sort == Sort::Scalar,
        Choice::Any => true,
    }
}

// The first unknown position of a choice whose class has no constant, with its place.
fn first_unknown<'p>(
    choice: Choice,
    positions: &'p [Position],
    claims: &Claims,
    solution: &Solution,
    constants: &Constants,
) -> Option<(usize, &'p Position)> {
    for (place, position) in positions.iter().enumerate() {
        if !solution.is_known(place)
            && !constants.waits_at(class_at(claims, place))
            && is_of(choice, positions, claims, place, position)
        {
            return Some((place, position));
        }
    }
    None
}

// The unknown position that is freed next, with its place.
fn next_free<'p>(
    positions: &'p [Position],
    claims: &Claims,
    solution: &Solution,
    constants: &Constants,
) -> Option<(usize, &'p Position)> {
    if let Some(found) = first_unknown(Choice::LeftInputs, positions, claims, solution, constants) {
        return Some(found);
    }
    if let Some(found) = first_unknown(Choice::Shared, positions, claims, solution, constants) {
        return Some(found);
    }
    if let Some(found) = first_unknown(Choice::Number, positions, claims, solution, constants) {
        return Some(found);
    }
    first_unknown(Choice::Any, positions, claims, solution, constants)
}

// Frees the position at a place: the others of its class have its symbol as their value.
fn free_position(
    alloc: Global,
    positions: &[Position],
    claims: &Claims,
    solution: &mut Solution,
    place: usize,
    position: &Position,
) -> Result<(), NoMemory> {
    solution.free.push(position.pos)?;
    solution.note_known(place);
    let symbol = own_symbol(alloc, position.sort, position.pos)?;
    match class_at(claims, place) {
        Some(class) => give_value(alloc, positions, claims, class, &symbol, solution),
        None => Ok(()),
    }
}

// Frees the next position, or else makes classes known by constants. Answers whether something became known.
fn free_or_tell(
    alloc: Global,
    work: &mut Work,
    universe: &Universe,
    positions: &[Position],
    claims: &Claims,
    solution: &mut Solution,
    constants: &Constants,
) -> Result<bool, Stop> {
    match next_free(positions, claims, solution, constants) {
        Some((place, position)) => {
            free_position(alloc, positions, claims, solution, place, position)?;
            Ok(true)
        }
        None => tell_constants(
            alloc, work, universe, positions, claims, solution, constants, true,
        ),
    }
}

// Makes all positions known.
fn settle_all(
    alloc: Global,
    work: &mut Work,
    universe: &Universe,
    positions: &[Position],
    claims: &Claims,
    solution: &mut Solution,
    constants: &Constants,
) -> Result<(), Stop> {
    for _ in positions {
        tell_all(
            alloc, work, universe, positions, claims, solution, constants,
        )?;
        if !free_or_tell(
            alloc, work, universe, positions, claims, solution, constants,
        )? {
            return Ok(());
        }
    }
    Ok(())
}

/// Values of all positions: those of a class have the value of a term whose positions are all known, or of a constant where
/// the class has no other term that may tell one; where no term tells a value, the next position is free, left inputs first,
/// then those with a position of the other side in their class, then numbers, then the others; at last constants tell all that
/// is left. `Bound` comes where too little work is left.
pub fn settle(
    alloc: Global,
    work: &mut Work,
    universe: &Universe,
    positions: &[Position],
    claims: &Claims,
) -> Result<Solution, Stop> {
    let constants = constants_of(alloc, universe, positions.len(), claims)?;
    let mut solution = Solution::new(alloc, positions.len())?;
    settle_all(
        alloc,
        work,
        universe,
        positions,
        claims,
        &mut solution,
        &constants,
    )?;
    Ok(solution)
}
