//! Linear equations that hold in vectors, as terms of claims.

use crate::candidates::{Candidate, candidates_of};
use crate::elimination::{Elimination, residue_at};
use crate::residues::{minus, small_number, times};
use crate::rows::{Values, column_of, values_of};
use fs_pair::positions::Position;
use nf_substitution::vector::Vector;
use nf_sums::sums::{add, mul, number};
use nf_terms::form::Nf;
use nf_terms::poly::Poly;
use nf_terms::stop::{NfStop, NoMemory};
use search_strengthening_claims::claims::Claims;
use search_strengthening_terms::stop::{Stop, unless_stopped};
use search_strengthening_terms::universe::Universe;
use search_strengthening_terms::work::Work;
use std::alloc::Global;

// The most equations of claims.
const EQUATION_LIMIT: usize = 32;

// The last number of a combination that is a position and whose coefficient is 1 or -1, with its place and that coefficient.
fn solved_place(candidates: &[Candidate], combination: &[u64]) -> Option<(usize, usize, u64)> {
    let mut last = None;
    for (number, candidate) in candidates.iter().enumerate() {
        let coefficient = residue_at(combination, number);
        if let (Some(place), Some(1 | -1)) = (candidate.place, small_number(coefficient)) {
            last = Some((number, place, coefficient));
        }
    }
    last
}

// A sum, and a multiple of a number.
fn sum_with(
    alloc: Global,
    sum: &Poly,
    coefficient: &i128,
    candidate: &Candidate,
) -> Result<Poly, NfStop> {
    let coefficient = number(alloc, coefficient)?;
    let multiple = mul(alloc, &coefficient, &candidate.number)?;
    add(alloc, sum, &multiple)
}

// A sum and the multiple of a number in a combination, whose sign is that of a factor; none where the coefficient is too great.
fn next_sum(
    alloc: Global,
    sum: Poly,
    residue: u64,
    factor: u64,
    candidate: &Candidate,
) -> Result<Option<Poly>, NoMemory> {
    if residue == 0 {
        return Ok(Some(sum));
    }
    match small_number(times(residue, factor)) {
        Some(coefficient) => unless_stopped(sum_with(alloc, &sum, &coefficient, candidate)),
        None => Ok(None),
    }
}

// What a number of a combination is equal to where the combination is 0.
fn solved_number(
    alloc: Global,
    candidates: &[Candidate],
    combination: &[u64],
    solved: usize,
    coefficient: u64,
) -> Result<Option<Poly>, NoMemory> {
    let factor = minus(0, coefficient); // 1 and -1 are their own inverses.
    let mut sum = Poly::number(alloc, 0)?;
    for (number, candidate) in candidates.iter().enumerate() {
        if number != solved {
            let residue = residue_at(combination, number);
            match next_sum(alloc, sum, residue, factor, candidate)? {
                Some(next) => sum = next,
                None => return Ok(None),
            }
        }
    }
    Ok(Some(sum))
}

// Adds a term to the class of the position at a place.
fn push_extra(claims: &mut Claims, place: usize, number: Poly) -> Result<(), NoMemory> {
    claims.extras.push(Nf::Num(number))?;
    claims.classes.push(Some(place))?;
    Ok(())
}

// Adds the equation that a combination is 0, if it is one for a position.
fn push_equation(
    alloc: Global,
    candidates: &[Candidate],
    combination: &[u64],
    claims: &mut Claims,
) -> Result<bool, NoMemory> {
    let Some((solved, place, coefficient)) = solved_place(candidates, combination) else {
        return Ok(false);
    };
    match solved_number(alloc, candidates, combination, solved, coefficient)? {
        Some(number) => {
            push_extra(claims, place, number)?;
            Ok(true)
        }
        None => Ok(false),
    }
}

// Adds equations between numbers with these values.
fn push_equations(
    alloc: Global,
    candidates: &[Candidate],
    values: &[Values],
    claims: &mut Claims,
) -> Result<(), NoMemory> {
    let mut elimination = Elimination::new(alloc);
    let mut rows = Vec::new(alloc);
    let mut equations = 0usize;
    for (place, all) in values.iter().enumerate() {
        if equations >= EQUATION_LIMIT {
            return Ok(());
        }
        if let Some(column) = column_of(alloc, &mut rows, candidates.len(), place, all)? {
            if let Some(combination) = elimination.add(column)? {
                if push_equation(alloc, candidates, combination.as_slice(), claims)? {
                    equations += 1;
                }
            }
        }
    }
    Ok(())
}

/// Adds to claims linear equations with integer coefficients, between 1, positions and products of the universe, that hold in
/// all vectors: each as a term in the class of a position whose coefficient is 1 or -1. They are found by elimination modulo
/// 2^31 - 1, and those with a coefficient above 1,000 are left out. `Bound` comes where too little work is left.
pub fn add_equations(
    alloc: Global,
    work: &mut Work,
    universe: &Universe,
    positions: &[Position],
    vectors: &[Vector],
    claims: &mut Claims,
) -> Result<(), Stop> {
    let candidates = candidates_of(alloc, universe, positions, claims)?;
    let values = values_of(alloc, work, vectors, candidates.as_slice())?;
    push_equations(alloc, candidates.as_slice(), values.as_slice(), claims)?;
    Ok(())
}
