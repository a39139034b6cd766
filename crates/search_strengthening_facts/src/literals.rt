//! The literals of claims over free positions.

use nf_rel::clashes::implied;
use nf_rel::literals::NLit;
use nf_substitution::subst::Subst;
use nf_substitution::vector::Vector;
use search_strengthening_solutions::tested_facts::LITERAL_LIMIT;
use search_strengthening_terms::stop::{Stop, unless_stopped};
use search_strengthening_terms::work::Work;
use std::alloc::Global;
use std::slice::from_ref;
use sym_facts::entailment::substitute_literal;

// Adds a literal that is neither true nor false.
fn push_open(work: &mut Work, out: &mut Vec<NLit>, literal: NLit) -> Result<(), Stop> {
    if matches!(literal, NLit::Is(_)) {
        work.spend(literal.size())?;
        out.push(literal)?;
    }
    Ok(())
}

// Adds a literal over free positions, unless it is true or false, or meets a limit.
fn push_value(
    alloc: Global,
    work: &mut Work,
    s: &mut Subst<'_>,
    out: &mut Vec<NLit>,
    literal: &NLit,
) -> Result<(), Stop> {
    work.spend(literal.size())?;
    match unless_stopped(substitute_literal(alloc, s, literal))? {
        Some(value) => push_open(work, out, value),
        None => Ok(()),
    }
}

// The literals with a substitution that are not true or false.
fn values_by(
    alloc: Global,
    work: &mut Work,
    s: &mut Subst<'_>,
    literals: &[NLit],
) -> Result<Vec<NLit>, Stop> {
    let mut out = Vec::new(alloc);
    for literal in literals {
        push_value(alloc, work, s, &mut out, literal)?;
    }
    Ok(out)
}

// The literals over free positions that are not true or false.
fn all_values(
    alloc: Global,
    work: &mut Work,
    values: &Vector,
    literals: &[NLit],
) -> Result<Vec<NLit>, Stop> {
    let mut s = Subst::new(alloc, values);
    values_by(alloc, work, &mut s, literals)
}

// Whether a literal makes another one needless: it implies that one, and of two that imply each other it is the first one.
fn makes_needless(by: &NLit, literal: &NLit, is_first: bool) -> bool {
    implied(from_ref(by), literal) && (is_first || !implied(from_ref(literal), by))
}

// Whether another literal of a list makes the one at a place needless.
fn is_needless(literals: &[NLit], place: usize, literal: &NLit) -> bool {
    for (other, by) in literals.iter().enumerate() {
        if other != place && makes_needless(by, literal, other < place) {
            return true;
        }
    }
    false
}

// Takes the work of comparing literals off.
fn spend_on_pairs(work: &mut Work, literals: &[NLit]) -> Result<(), Stop> {
    let count = literals.len() as u64;
    work.spend(count.saturating_mul(count) / 4)
}

// The first 64 literals that no other one implies.
fn needed_literals(alloc: Global, literals: &[NLit]) -> Result<Vec<NLit>, Stop> {
    let mut out = Vec::new(alloc);
    for (place, literal) in literals.iter().enumerate() {
        if out.len() < LITERAL_LIMIT && !is_needless(literals, place, literal) {
            out.push(literal.try_clone(alloc)?)?;
        }
    }
    Ok(out)
}

/// The literals over free positions: those that are true or false or meet a limit are left out, and so are those that another
/// one implies, and all behind the first 64. `Bound` comes where too little work is left.
pub fn literals_over(
    alloc: Global,
    work: &mut Work,
    values: &Vector,
    literals: &[NLit],
) -> Result<Vec<NLit>, Stop> {
    let all = all_values(alloc, work, values, literals)?;
    spend_on_pairs(work, all.as_slice())?;
    needed_literals(alloc, all.as_slice())
}
