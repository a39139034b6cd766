//! The fact that is made of claims.

use crate::literals::literals_over;
use fs_pair::positions::{Pairing, Position};
use nf_terms::form::Nf;
use nf_terms::stop::NoMemory;
use search_strengthening_solutions::claims::Claims;
use search_strengthening_solutions::equating::equate;
use search_strengthening_solutions::settling::settle;
use search_strengthening_solutions::solution::{Solution, position_value};
use search_strengthening_solutions::tested_facts::tested_fact;
use search_strengthening_terms::stop::Stop;
use search_strengthening_terms::universe::Universe;
use search_strengthening_terms::work::Work;
use std::alloc::Global;
use sym_facts::fact::Fact;

// The equation of a position: none where it is free.
fn equation_of(
    alloc: Global,
    solution: &Solution,
    position: &Position,
) -> Result<Option<Nf>, NoMemory> {
    if solution.is_free(position.pos) {
        return Ok(None);
    }
    Ok(Some(position_value(alloc, solution, position)?))
}

// The equations of positions.
fn equations_of(
    alloc: Global,
    solution: &Solution,
    positions: &[Position],
) -> Result<Vec<Option<Nf>>, NoMemory> {
    let mut out = Vec::new(alloc);
    for position in positions {
        out.push(equation_of(alloc, solution, position)?)?;
    }
    Ok(out)
}

// The fact that is found. `Bound` comes where there is none.
fn found_fact(found: Result<Option<Fact>, NoMemory>) -> Result<Fact, Stop> {
    match found {
        Ok(Some(fact)) => Ok(fact),
        Ok(None) => Err(Stop::Bound),
        Err(_) => Err(Stop::NoMemory),
    }
}

// The fact of the values of positions, after those of the terms of each class are made equal. `Bound` comes where they make none.
fn fact_over(
    alloc: Global,
    work: &mut Work,
    universe: &Universe,
    p: &Pairing,
    claims: &Claims,
    solution: &mut Solution,
) -> Result<Fact, Stop> {
    let positions = p.positions();
    equate(alloc, work, universe, positions, claims, solution)?;
    let equations = equations_of(alloc, solution, positions)?;
    let literals = literals_over(alloc, work, &solution.values, claims.literals.as_slice())?;
    found_fact(tested_fact(alloc, p, equations, literals))
}

/// The fact that is made of claims: each position is free, or has a value over free positions that all its class has. `Bound`
/// comes where too little work is left, or what is made is no fact.
pub fn fact_of(
    alloc: Global,
    work: &mut Work,
    universe: &Universe,
    p: &Pairing,
    claims: &Claims,
) -> Result<Fact, Stop> {
    let mut solution = settle(alloc, work, universe, p.positions(), claims)?;
    fact_over(alloc, work, universe, p, claims, &mut solution)
}
