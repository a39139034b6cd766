//! A fact without what a post does not entail.

ghost use Rattle.std.specs.Prelude.{◌≡◌, ◌≤◌, ◌<◌, ◌^◌, [], map, length, IfOk};
ghost use Rattle.nf_terms.specs.Computed.{Answers, Done};
ghost use Rattle.nf_rel.specs.View.{literal_in};
ghost use Rattle.sym_paths.specs.View.{answer_in_data, post_in};
ghost use Rattle.sym_facts.specs.Entailment.{entails};
ghost use Rattle.sym_facts.specs.Pairings.{IsFactOf};
ghost use Rattle.sym_facts.specs.FactParts.{most_sorted_positions};
ghost use Rattle.sym_facts.specs.View.{position_in, missing_in};
ghost use Rattle.propagate.specs.Joins.{tied_equation, freed_with, join as joined};
ghost use Rattle.propagate.specs.JoinSteps.{equation_joined, freed_by_join, is_first_place, left_behind, joined_from};
ghost use Rattle.propagate.specs.JoinSteps.{literals_from};
ghost use Rattle.propagate_equations.specs.View.{freed_in};

use fs_pair::positions::Pairing;
use nf_rel::literals::NLit;
use nf_substitution::shared_form::SharedForm;
use nf_substitution::subst::Subst;
use nf_substitution::vector::Vector;
use nf_terms::stop::{NfStop, NoMemory};
use nf_terms::tree::Pos;
use propagate_equations::ties::{Freed, tie_equation};
use std::alloc::Global;
use sym_facts::entailment::Entail;
use sym_facts::fact::{Fact, FactPosition, copied_equation};
use sym_paths::execution::Post;

// Whether a place is the first of those that are left.
fn is_first(place: u32, left: &[u32]) -> bool
    ensures { result ≡ is_first_place place left.now }
{
    match left {
        [] => false,
        [first, ..] => *first == place,
    }
}

// Those that are left behind a place.
fn left_behind(place: u32, left: &[u32]) -> &[u32]
    ensures { result.now ≡ left_behind place left.now }
{
    if is_first(place, left) {
        &left[1..]
    } else {
        left
    }
}

// The equation of a position whose equation fails: a tie, or else none, and then the position is freed.
fn tied_or_freed<'a>(
    alloc: Global,
    s: &mut Subst<'_>,
    v: &Vector,
    pos: Pos,
    old: &'a SharedForm,
    freed: &mut Vec<Freed<'a>>,
) -> Result<Option<SharedForm>, NfStop>
    requires { s.old.vector ≡ v.now }
    ensures answers { Answers result (tied_equation v.now pos old.now (map freed_in freed.old.items)) }
    ensures freed { IfOk result (λ o. map freed_in freed.new.items ≡ freed_with pos old.now o (map freed_in freed.old.items)) }
    ensures vector { s.new.vector ≡ s.old.vector }
{
    let form = old.form();
    if let Some(tie) = tie_equation(alloc, s, v, &pos, form, freed.as_slice())? {
        return Ok(Some(SharedForm::of(alloc, tie)?));
    }
    freed.push(Freed { pos, old: form })?;
    Ok(None)
}

// The equation of a position: as it was where it does not fail.
fn equation_joined<'a>(
    alloc: Global,
    s: &mut Subst<'_>,
    v: &Vector,
    fails: bool,
    position: &'a FactPosition,
    freed: &mut Vec<Freed<'a>>,
) -> Result<Option<SharedForm>, NfStop>
    requires { s.old.vector ≡ v.now }
    ensures answers { Answers result
        (equation_joined v.now fails (position_in position.now).pos (position_in position.now).equation
        (map freed_in freed.old.items)) }
    ensures freed { IfOk result
        (λ o. map freed_in freed.new.items ≡ freed_by_join fails (position_in position.now).pos
        (position_in position.now).equation o (map freed_in freed.old.items)) }
    ensures vector { s.new.vector ≡ s.old.vector }
{
    if !fails {
        return Ok(copied_equation(&position.equation)?);
    }
    match &position.equation {
        Some(old) => tied_or_freed(alloc, s, v, position.pos, old, freed),
        None => Ok(None),
    }
}

// The positions, where those at the missing places are tied or freed.
fn positions_joined(
    alloc: Global,
    s: &mut Subst<'_>,
    v: &Vector,
    missing: &[u32],
    positions: &[FactPosition],
) -> Result<Vec<FactPosition>, NfStop>
    requires vector { s.old.vector ≡ v.now }
    requires few { length positions.now ≤ most_sorted_positions }
    ensures { Answers (answer_in_data (λ out. map position_in out.items) result)
        (joined_from v.now 0 missing.now [] (map position_in positions.now)) }
{
    let mut freed = Vec::new(alloc);
    let mut left = missing;
    let mut out = Vec::new(alloc);
    for (place, position) in positions.iter().enumerate() {
        let fails = is_first(place as u32, left);
        left = left_behind(place as u32, left);
        let equation = equation_joined(alloc, s, v, fails, position, &mut freed)?;
        out.push(FactPosition {
            pos: position.pos,
            sort: position.sort,
            equation,
        })?;
    }
    Ok(out)
}

// The same, by a substitution of its own.
fn all_joined(
    alloc: Global,
    v: &Vector,
    missing: &[u32],
    positions: &[FactPosition],
) -> Result<Vec<FactPosition>, NfStop>
    requires { length positions.now ≤ most_sorted_positions }
    ensures { Answers (answer_in_data (λ out. map position_in out.items) result)
        (joined_from v.now 0 missing.now [] (map position_in positions.now)) }
{
    let mut s = Subst::new(alloc, v);
    positions_joined(alloc, &mut s, v, missing, positions)
}

// The literals that are not at a missing index.
fn literals_kept(alloc: Global, missing: &[u32], literals: &[NLit]) -> Result<Vec<NLit>, NoMemory>
    requires { length literals.now < 2 ^ 32 }
    ensures { IfOk result (λ out. map literal_in out.items ≡ literals_from 0 missing.now (map literal_in literals.now)) }
{
    let mut left = missing;
    let mut out = Vec::new(alloc);
    for (index, literal) in literals.iter().enumerate() {
        if !is_first(index as u32, left) {
            out.push(literal.try_clone(alloc)?)?;
        }
        left = left_behind(index as u32, left);
    }
    Ok(out)
}

/// A fact of the two machines without what a post does not entail. Of the positions whose equations fail, in order, a number is
/// tied to the first one freed before from which the arriving number differs as its form differed from that one's, an array or a
/// list to the first one freed before that has the same form and the same arriving form, and any other is freed. Literals that
/// are not implied go.
///
/// `Wide` and `Large` come exactly at the first operation that is not narrow, or narrow and not small: for each number and each
/// freed one in turn the difference of the forms, that of the arriving numbers, and the substitution of the first; then the sum
/// where they agree. `NoMemory`: out of memory.
pub fn join(
    alloc: Global,
    old: &Fact,
    post: &Post,
    miss: &Entail,
    p: &Pairing,
) -> Result<Fact, NfStop>
    requires pairing { IsFactOf p.now old.now }
    requires missing { entails (post_in post.now) old.now ≡ Done (missing_in miss.now) }
    ensures { Answers result (joined old.now (post_in post.now) (missing_in miss.now)) }
{
    p.holds();
    old.holds();
    let positions = all_joined(
        alloc,
        &post.vector,
        miss.equations.as_slice(),
        old.positions(),
    )?;
    let conds = literals_kept(alloc, miss.conds.as_slice(), old.conds())?;
    Ok(Fact::of(positions, conds))
}
