//! The numbers between which equations may hold.

use fs_model::parts::{Role, Sort};
use fs_pair::positions::Position;
use nf_terms::form::Nf;
use nf_terms::poly::Poly;
use nf_terms::stop::NoMemory;
use nf_vectors::bare_numbers::lone_symbol;
use search_strengthening_claims::claims::{Claims, class_at};
use search_strengthening_terms::universe::{Term, Universe};
use std::alloc::Global;

// The most numbers.
const CANDIDATE_LIMIT: usize = 64;

/// A number, with its place where it is a position.
#[derive(Drop)]
pub(crate) struct Candidate {
    pub number: Poly,
    pub place: Option<usize>,
}

// Adds a number, unless there are too many.
fn push(all: &mut Vec<Candidate>, number: Poly, place: Option<usize>) -> Result<(), NoMemory> {
    if all.len() < CANDIDATE_LIMIT {
        all.push(Candidate { number, place })?;
    }
    Ok(())
}

// Adds the numbers that are inputs, or those that are not, and that are the first of their classes.
fn push_positions(
    alloc: Global,
    positions: &[Position],
    claims: &Claims,
    inputs: bool,
    all: &mut Vec<Candidate>,
) -> Result<(), NoMemory> {
    for (place, position) in positions.iter().enumerate() {
        if position.sort == Sort::Scalar
            && (position.role == Role::Input) == inputs
            && class_at(claims, place) == Some(place)
        {
            let symbol = Poly::symbol(alloc, position.pos)?;
            push(all, symbol, Some(place))?;
        }
    }
    Ok(())
}

// The number that a term is, where it is a product of atoms.
fn product_in(term: &Term) -> Option<&Poly> {
    let Nf::Num(number) = &term.form else {
        return None;
    };
    match number.monos() {
        [product] if lone_symbol(&product.0).is_none() => Some(number),
        _ => None,
    }
}

// Adds the products of the universe that are in no class before their own.
fn push_products(
    alloc: Global,
    universe: &Universe,
    claims: &Claims,
    all: &mut Vec<Candidate>,
) -> Result<(), NoMemory> {
    for (place, term) in universe.terms.iter().enumerate() {
        let class = class_at(claims, place);
        if class.is_none() || class == Some(place) {
            if let Some(product) = product_in(term) {
                push(all, product.try_clone(alloc)?, None)?;
            }
        }
    }
    Ok(())
}

/// The numbers between which equations may hold: 1, inputs, the other numbers, and products of the universe; of each class the
/// first, and 64 at most. The one refusal is out of memory.
pub(crate) fn candidates_of(
    alloc: Global,
    universe: &Universe,
    positions: &[Position],
    claims: &Claims,
) -> Result<Vec<Candidate>, NoMemory> {
    let mut all = Vec::new(alloc);
    push(&mut all, Poly::number(alloc, 1)?, None)?;
    push_positions(alloc, positions, claims, true, &mut all)?;
    push_positions(alloc, positions, claims, false, &mut all)?;
    push_products(alloc, universe, claims, &mut all)?;
    Ok(all)
}
