//! The constants of classes.

use nf_symbols::gathering::symbols_of_nf;
use nf_terms::stop::NoMemory;
use search_strengthening_claims::claims::{Claims, class_at, form_at};
use search_strengthening_terms::universe::{Term, Universe};
use std::alloc::Global;

// How many terms behind the positions are 0, the array that is 0 everywhere or the empty list.
const ZERO_COUNT: usize = 3;

/// A term without positions that is in a class of positions: its place, its class, and whether the class waits for what its
/// other terms tell.
#[derive(Drop)]
pub(crate) struct Constant {
    pub place: usize,
    class: usize,
    pub waits: bool,
}

/// The constants of all classes of positions.
#[derive(Drop)]
pub(crate) struct Constants {
    pub all: Vec<Constant>,
}

impl Constants {
    /// Whether a class waits.
    pub(crate) fn waits_at(&self, class: Option<usize>) -> bool {
        for constant in &self.all {
            if constant.waits && Some(constant.class) == class {
                return true;
            }
        }
        false
    }
}

// Whether a term mentions positions, and none of a class.
fn is_beside(claims: &Claims, term: &Term, class: usize) -> bool {
    for place in &term.places {
        if class_at(claims, *place) == Some(class) {
            return false;
        }
    }
    !term.places.is_empty()
}

// Whether a class has a term that mentions positions, and none of the class.
fn has_others(universe: &Universe, claims: &Claims, class: usize) -> bool {
    for (place, term) in universe.terms.iter().enumerate() {
        if class_at(claims, place) == Some(class) && is_beside(claims, term, class) {
            return true;
        }
    }
    false
}

// The class of a term, where it is one of positions and the term mentions none.
fn constant_class(
    alloc: Global,
    universe: &Universe,
    positions: usize,
    claims: &Claims,
    place: usize,
) -> Result<Option<usize>, NoMemory> {
    let (Some(class), Some(form)) = (class_at(claims, place), form_at(universe, claims, place))
    else {
        return Ok(None);
    };
    if class < positions && symbols_of_nf(alloc, form)?.is_empty() {
        Ok(Some(class))
    } else {
        Ok(None)
    }
}

/// The constants of claims. The one refusal is out of memory.
pub(crate) fn constants_of(
    alloc: Global,
    universe: &Universe,
    positions: usize,
    claims: &Claims,
) -> Result<Constants, NoMemory> {
    let zeros = positions.saturating_add(ZERO_COUNT);
    let mut all = Vec::new(alloc);
    for place in positions..claims.classes.len() {
        if let Some(class) = constant_class(alloc, universe, positions, claims, place)? {
            let waits = place >= zeros && has_others(universe, claims, class);
            all.push(Constant {
                place,
                class,
                waits,
            })?;
        }
    }
    Ok(Constants { all })
}
