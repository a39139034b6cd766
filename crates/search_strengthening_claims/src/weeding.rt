//! Claims without what does not hold at an arrival.

use crate::claims::{Claims, form_at};
use nf_rel::clashes::implied;
use nf_rel::literals::NLit;
use nf_terms::form::Nf;
use nf_terms::stop::NoMemory;
use propagate::subst::Subst;
use search_strengthening_terms::sorted::{compare_forms, insert_at};
use search_strengthening_terms::stop::{Stop, unless_stopped};
use search_strengthening_terms::universe::Universe;
use search_strengthening_terms::work::Work;
use std::alloc::Global;
use std::cmp::Ordering;
use sym_facts::entailment::{substitute, substitute_literal};
use sym_paths::execution::Post;

// The first term of a class, with its value and the class that it had, and whether the class has a second term.
#[derive(Drop)]
struct First {
    old: usize,
    place: usize,
    value: Nf,
    is_shared: bool,
}

// The first terms of classes, and their numbers in the order of the classes that they had and their values.
#[derive(Drop)]
struct Firsts {
    all: Vec<First>,
    sorted: Vec<usize>,
}

// Takes the work of a value off.
fn spend_on_value(work: &mut Work, value: &Option<Nf>) -> Result<(), Stop> {
    match value {
        Some(value) => work.spend(value.size()),
        None => Ok(()),
    }
}

/// The value of a form, or none where it meets a limit. `Bound`: the work is used up; `NoMemory`: out of memory.
pub fn value_of(
    alloc: Global,
    work: &mut Work,
    s: &mut Subst<'_>,
    form: &Nf,
) -> Result<Option<Nf>, Stop> {
    work.spend(form.size())?;
    let value = unless_stopped(substitute(alloc, s, form))?;
    spend_on_value(work, &value)?;
    Ok(value)
}

// Where the number of the first term that had this class and has this value stands among the sorted ones, or else where it would
// go.
fn find_first(firsts: &Firsts, old: usize, value: &Nf) -> Result<usize, usize> {
    let all = firsts.all.as_slice();
    firsts.sorted.binary_search_by(|number| match all.get(*number) {
        Some(first) => first
            .old
            .cmp(&old)
            .then_with(|| compare_forms(&first.value, value)),
        None => Ordering::Greater,
    })
}

// The place of the first term whose number stands there among the sorted ones, which then shares its class.
fn share_first(firsts: &mut Firsts, at: usize) -> Option<usize> {
    let number = *firsts.sorted.get(at)?;
    let first = firsts.all.get_mut(number)?;
    first.is_shared = true;
    Some(first.place)
}

// Adds the first term of a class, whose number goes there among the sorted ones.
fn add_first(firsts: &mut Firsts, at: usize, first: First) -> Result<(), NoMemory> {
    insert_at(&mut firsts.sorted, at, firsts.all.len())?;
    Ok(firsts.all.push(first)?)
}

// The class of a term that had a class and has a value.
fn class_with(
    firsts: &mut Firsts,
    old: usize,
    place: usize,
    value: Nf,
) -> Result<Option<usize>, NoMemory> {
    match find_first(firsts, old, &value) {
        Ok(at) => Ok(share_first(firsts, at)),
        Err(at) => {
            let first = First {
                old,
                place,
                value,
                is_shared: false,
            };
            add_first(firsts, at, first)?;
            Ok(Some(place))
        }
    }
}

// The class of a term after an arrival; none where its value meets a limit.
fn class_after(
    alloc: Global,
    work: &mut Work,
    s: &mut Subst<'_>,
    form: Option<&Nf>,
    firsts: &mut Firsts,
    old: Option<usize>,
    place: usize,
) -> Result<Option<usize>, Stop> {
    let (Some(old), Some(form)) = (old, form) else {
        return Ok(None);
    };
    match value_of(alloc, work, s, form)? {
        Some(value) => Ok(class_with(firsts, old, place, value)?),
        None => Ok(None),
    }
}

// Adds the classes, split by the values of their terms.
fn push_classes(
    alloc: Global,
    work: &mut Work,
    universe: &Universe,
    claims: &Claims,
    s: &mut Subst<'_>,
    firsts: &mut Firsts,
    classes: &mut Vec<Option<usize>>,
) -> Result<(), Stop> {
    for (place, old) in claims.classes.iter().enumerate() {
        let form = form_at(universe, claims, place);
        let class = class_after(alloc, work, s, form, firsts, *old, place)?;
        classes.push(class)?;
    }
    Ok(())
}

// Puts terms out that are alone in their classes and no positions.
fn put_out_lone(firsts: &[First], classes: &mut [Option<usize>], positions: usize) {
    for first in firsts {
        if positions <= first.place && !first.is_shared {
            if let Some(class) = classes.get_mut(first.place) {
                *class = None;
            }
        }
    }
}

// The classes after an arrival.
fn classes_after(
    alloc: Global,
    work: &mut Work,
    universe: &Universe,
    positions: usize,
    claims: &Claims,
    s: &mut Subst<'_>,
) -> Result<Vec<Option<usize>>, Stop> {
    let mut firsts = Firsts {
        all: Vec::new(alloc),
        sorted: Vec::new(alloc),
    };
    let mut classes = Vec::new(alloc);
    push_classes(alloc, work, universe, claims, s, &mut firsts, &mut classes)?;
    put_out_lone(firsts.all.as_slice(), &mut classes, positions);
    Ok(classes)
}

// Whether a value of a literal is implied at an arrival.
fn is_implied(work: &mut Work, conds: &[NLit], value: &NLit) -> Result<bool, Stop> {
    work.spend(value.size())?;
    Ok(implied(conds, value))
}

// Whether a literal holds at an arrival.
fn is_kept(
    alloc: Global,
    work: &mut Work,
    s: &mut Subst<'_>,
    conds: &[NLit],
    literal: &NLit,
) -> Result<bool, Stop> {
    work.spend(literal.size())?;
    match unless_stopped(substitute_literal(alloc, s, literal))? {
        Some(value) => is_implied(work, conds, &value),
        None => Ok(false),
    }
}

// The literals that hold at an arrival.
fn kept_literals(
    alloc: Global,
    work: &mut Work,
    s: &mut Subst<'_>,
    conds: &[NLit],
    literals: &[NLit],
) -> Result<Vec<NLit>, Stop> {
    let mut out = Vec::new(alloc);
    for literal in literals {
        if is_kept(alloc, work, s, conds, literal)? {
            out.push(literal.try_clone(alloc)?)?;
        }
    }
    Ok(out)
}

// Gives claims these classes and literals. Answers whether this changed them.
fn change(claims: &mut Claims, classes: Vec<Option<usize>>, literals: Vec<NLit>) -> bool {
    let changed = classes.as_slice() != claims.classes.as_slice()
        || literals.len() != claims.literals.len();
    claims.classes = classes;
    claims.literals = literals;
    changed
}

// Weeds claims by an arriving vector and arriving conditions.
fn weed_by(
    alloc: Global,
    work: &mut Work,
    universe: &Universe,
    positions: usize,
    claims: &mut Claims,
    s: &mut Subst<'_>,
    conds: &[NLit],
) -> Result<bool, Stop> {
    let classes = classes_after(alloc, work, universe, positions, claims, s)?;
    let literals = kept_literals(alloc, work, s, conds, claims.literals.as_slice())?;
    Ok(change(claims, classes, literals))
}

/// Weeds claims by a post: each class is split by the values that its terms have in the arriving vector, a term whose value
/// meets a limit is out, and literals go that the arriving conditions do not imply. Answers whether this changed the claims.
/// `Bound` comes where too little work is left.
pub fn weed(
    alloc: Global,
    work: &mut Work,
    universe: &Universe,
    positions: usize,
    claims: &mut Claims,
    post: &Post,
) -> Result<bool, Stop> {
    let mut s = Subst::new(alloc, &post.vector);
    let conds = post.conds.as_slice();
    weed_by(alloc, work, universe, positions, claims, &mut s, conds)
}
