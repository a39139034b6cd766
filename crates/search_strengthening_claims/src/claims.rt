//! What has held at every arrival at a pair of points.

use fs_pair::positions::{Pairing, Position};
use nf_rel::literals::NLit;
use nf_terms::form::Nf;
use nf_terms::stop::NoMemory;
use nf_terms::symbols::Sort;
use nf_terms::tree::Pos;
use propagate::rebases::rebase;
use search_strengthening_terms::collection::place_of;
use search_strengthening_terms::live::all_live;
use search_strengthening_terms::stop::unless_stopped;
use search_strengthening_terms::universe::{Term, Universe};
use std::alloc::Global;
use sym_facts::fact::{FactPosition, copied_literals};
use sym_facts::gathering::{symbols_of_nf, symbols_of_poly};
use sym_paths::execution::Post;

/// What has held at every arrival at a pair of points: terms have been equal, and literals have been true. The terms are those
/// of the universe and then the extras. The class of a term is the place of the first term that has been equal to it; a term
/// out of all classes claims nothing.
#[derive(Drop)]
pub struct Claims {
    pub extras: Vec<Nf>,
    pub classes: Vec<Option<usize>>,
    pub literals: Vec<NLit>,
}

/// For each position whether it matters at two points, and whether nothing is claimed of those that do not.
#[derive(Drop)]
pub struct LivePositions {
    pub all: Vec<bool>,
    pub frees_others: bool,
}

impl LivePositions {
    /// Whether nothing is claimed of the position at a place.
    pub fn frees(&self, place: usize) -> bool {
        self.frees_others && self.all.get(place) == Some(&false)
    }
}

/// The form of a term of claims.
pub fn form_at<'t>(universe: &'t Universe, claims: &'t Claims, place: usize) -> Option<&'t Nf> {
    match universe.terms.get(place) {
        Some(term) => Some(&term.form),
        None => claims.extras.get(place - universe.terms.len()),
    }
}

/// The class of a term.
pub fn class_at(claims: &Claims, place: usize) -> Option<usize> {
    match claims.classes.get(place) {
        Some(class) => *class,
        None => None,
    }
}

// Whether symbols are all of positions that matter.
fn are_live(positions: &[Position], live: &[bool], symbols: &[(Pos, Sort)]) -> bool {
    for (pos, _sort) in symbols {
        match place_of(positions, *pos) {
            Some(place) if live.get(place) == Some(&true) => {}
            _ => return false,
        }
    }
    true
}

// Copies of the equations of a fact that mention nothing but what matters.
fn live_equations(
    alloc: Global,
    positions: &[Position],
    live: &[bool],
    equations: &[FactPosition],
) -> Result<Vec<Nf>, NoMemory> {
    let mut out = Vec::new(alloc);
    for equation in equations {
        if let Some(form) = equation.form() {
            let symbols = symbols_of_nf(alloc, form)?;
            if are_live(positions, live, symbols.as_slice()) {
                out.push(form.try_clone(alloc)?)?;
            }
        }
    }
    Ok(out)
}

// Whether a literal mentions nothing but what matters.
fn is_live_literal(
    alloc: Global,
    positions: &[Position],
    live: &[bool],
    literal: &NLit,
) -> Result<bool, NoMemory> {
    match literal {
        NLit::Is(bound) => {
            let symbols = symbols_of_poly(alloc, &bound.dir)?;
            Ok(are_live(positions, live, symbols.as_slice()))
        }
        NLit::True | NLit::False => Ok(false),
    }
}

// Adds copies of the literals that mention nothing but what matters.
fn add_live(
    alloc: Global,
    positions: &[Position],
    live: &[bool],
    literals: &[NLit],
    out: &mut Vec<NLit>,
) -> Result<(), NoMemory> {
    for literal in literals {
        if is_live_literal(alloc, positions, live, literal)? {
            out.push(literal.try_clone(alloc)?)?;
        }
    }
    Ok(())
}

// The literals of a universe that mention nothing but what matters.
fn live_literals(alloc: Global, universe: &Universe, live: &[bool]) -> Result<Vec<NLit>, NoMemory> {
    let mut out = Vec::new(alloc);
    for condition in &universe.literals {
        if all_live(live, condition.places.as_slice()) {
            out.push(condition.literal.try_clone(alloc)?)?;
        }
    }
    Ok(out)
}

// The class of the term at a place before the first arrival: this one, unless nothing is claimed of it.
fn first_class(live: &LivePositions, place: usize, term: &Term, shared: usize) -> Option<usize> {
    if live.frees(place) {
        Some(place)
    } else if place < live.all.len() || all_live(live.all.as_slice(), term.places.as_slice()) {
        Some(shared)
    } else {
        None
    }
}

// One class of the positions of which something is claimed, of the terms of a universe that mention nothing but what matters, and
// of so many extras. The others are alone.
fn one_class(
    alloc: Global,
    universe: &Universe,
    live: &LivePositions,
    extras: usize,
) -> Result<Vec<Option<usize>>, NoMemory> {
    let shared = universe.terms.len();
    let mut classes = Vec::new(alloc);
    for (place, term) in universe.terms.iter().enumerate() {
        classes.push(first_class(live, place, term, shared))?;
    }
    for _ in 0..extras {
        classes.push(Some(shared))?;
    }
    Ok(classes)
}

// The claims that equations and all terms of the universe that matter are equal, and that all its literals that matter and others
// are true.
fn claims_with(
    alloc: Global,
    universe: &Universe,
    live: &LivePositions,
    positions: &[Position],
    equations: &[FactPosition],
    others: &[NLit],
) -> Result<Claims, NoMemory> {
    let all = live.all.as_slice();
    let extras = live_equations(alloc, positions, all, equations)?;
    let classes = one_class(alloc, universe, live, extras.len())?;
    let mut literals = live_literals(alloc, universe, all)?;
    add_live(alloc, positions, all, others, &mut literals)?;
    Ok(Claims {
        extras,
        classes,
        literals,
    })
}

// Copies of forms.
fn copied_forms(alloc: Global, forms: &[Nf]) -> Result<Vec<Nf>, NoMemory> {
    let mut out = Vec::new(alloc);
    for form in forms {
        out.push(form.try_clone(alloc)?)?;
    }
    Ok(out)
}

/// A copy of claims. The one refusal is out of memory.
pub fn copied_claims(alloc: Global, claims: &Claims) -> Result<Claims, NoMemory> {
    let extras = copied_forms(alloc, claims.extras.as_slice())?;
    let literals = copied_literals(alloc, claims.literals.as_slice())?;
    Ok(Claims {
        extras,
        classes: claims.classes.clone()?,
        literals,
    })
}

/// What is claimed before the first arrival, by which positions matter: that all positions and all terms and literals over these
/// are equal and true. The extras are equations of the fact that the post carries on, and literals of that are claimed too, where
/// they mention nothing else. The one refusal is out of memory.
pub fn claims_before(
    alloc: Global,
    universe: &Universe,
    live: &LivePositions,
    post: &Post,
    p: &Pairing,
) -> Result<Claims, NoMemory> {
    match unless_stopped(rebase(alloc, post, p))? {
        Some(fact) => claims_with(
            alloc,
            universe,
            live,
            p.positions(),
            fact.positions(),
            fact.conds(),
        ),
        None => claims_with(alloc, universe, live, p.positions(), &[], &[]),
    }
}
