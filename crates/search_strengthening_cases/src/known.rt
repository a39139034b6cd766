//! What is known at an arrival.

use crate::kinds::{CaseKind, Numbers};
use crate::told::{InputCondition, Live, Told, is_live};
use nf_rel::clashes::implied;
use nf_rel::literals::NLit;
use nf_substitution::vector::Vector;
use nf_sums::sums::constant_of;
use nf_terms::form::Nf;
use nf_terms::symbols::Sort;
use nf_terms::tree::Pos;
use search_strengthening_terms::stop::Stop;
use search_strengthening_terms::work::Work;
use std::alloc::Global;
use sym_paths::execution::Post;

/// Whether a condition is known at an arrival.
#[derive(Clone, Copy, PartialEq, Eq)]
pub enum Truth {
    True,
    False,
    Unknown,
}

// Whether a condition that matters is known under others.
fn truth_of(conds: &[NLit], live: Live, condition: &InputCondition) -> Truth {
    if !condition.is_live(live) {
        Truth::Unknown
    } else if implied(conds, &condition.literal) {
        Truth::True
    } else if implied(conds, &condition.negation) {
        Truth::False
    } else {
        Truth::Unknown
    }
}

// For each condition whether it is known under others.
fn truths_of(
    alloc: Global,
    work: &mut Work,
    conds: &[NLit],
    live: Live,
    conditions: &[InputCondition],
) -> Result<Vec<Truth>, Stop> {
    let mut out = Vec::new(alloc);
    for condition in conditions {
        work.spend((conds.len() as u64).saturating_add(1))?;
        out.push(truth_of(conds, live, condition))?;
    }
    Ok(out)
}

/// For each condition that tells cases apart whether it is known at an arrival. `Exhausted` comes where too little work is left.
pub(crate) fn known_conditions(
    alloc: Global,
    work: &mut Work,
    kind: CaseKind,
    told: &Told,
    live: Live,
    post: &Post,
) -> Result<Vec<Truth>, Stop> {
    if kind.conditions {
        truths_of(
            alloc,
            work,
            post.conds.as_slice(),
            live,
            told.conditions.as_slice(),
        )
    } else {
        Ok(Vec::new(alloc))
    }
}

// The number that a position is known to have.
fn number_at(v: &Vector, pos: Pos) -> Option<i128> {
    match v.form(Sort::Scalar, pos) {
        Some(Nf::Num(number)) => constant_of(number),
        _ => None,
    }
}

// The number that a position is known to have, if it matters.
fn live_number(v: &Vector, live: Live, pos: Pos) -> Option<i128> {
    if is_live(live, pos) {
        number_at(v, pos)
    } else {
        None
    }
}

// For each position that matters the number that it is known to have.
fn numbers_at(
    alloc: Global,
    work: &mut Work,
    v: &Vector,
    live: Live,
    positions: &[Pos],
) -> Result<Vec<Option<i128>>, Stop> {
    let mut out = Vec::new(alloc);
    for pos in positions {
        work.spend(1)?;
        out.push(live_number(v, live, *pos))?;
    }
    Ok(out)
}

/// For each local whose number tells cases apart the number that it is known to have at an arrival. `Exhausted` comes where too
/// little work is left.
pub(crate) fn known_numbers(
    alloc: Global,
    work: &mut Work,
    kind: CaseKind,
    told: &Told,
    live: Live,
    post: &Post,
) -> Result<Vec<Option<i128>>, Stop> {
    match kind.numbers {
        Numbers::None => Ok(Vec::new(alloc)),
        Numbers::Flags => numbers_at(alloc, work, &post.vector, live, told.flags.as_slice()),
        Numbers::Locals => numbers_at(alloc, work, &post.vector, live, told.locals.as_slice()),
    }
}
