//! What one machine's path does where a fact holds, whatever the other machine does.

ghost use Rattle.std.specs.Prelude.{◌≡◌, ◌++◌, [], length, map, IfOk, OnOk};
ghost use Rattle.fs_cut.specs.View.{path_of};
ghost use Rattle.nf_terms.specs.Computed.{Answers, Done};
ghost use Rattle.nf_vectors.specs.Vectors.{form_at};
ghost use Rattle.nf_rel.specs.Literals.{is_refuted as refuted};
ghost use Rattle.nf_rel.specs.View.{literal_in};
ghost use Rattle.sym_paths.specs.Execution.{execute as executed};
ghost use Rattle.sym_paths.specs.ValuationStores.{choose_side};
ghost use Rattle.sym_paths.specs.View.{answer_in_data, post_in};
ghost use Rattle.sym_facts.specs.Facts.{sort_of_terms};
ghost use Rattle.sym_facts.specs.View.{position_in};
ghost use Rattle.sym_entailment.specs.Outcomes.{outcome_in, way_in, refuted_together, put_found, put_sides, joined_by};

use fs_ast::machine::Machine;
use fs_cut::cover::Path;
use fs_model::parts::Sort as VariableSort;
use nf_refutation::refutation::is_refuted;
use nf_rel::literals::NLit;
use nf_substitution::vector::Vector;
use nf_terms::stop::{NfStop, NoMemory};
use nf_terms::symbols::Sort;
use nf_terms::tree::Side;
use std::alloc::Global;
use sym_facts::fact::{Fact, FactPosition, copied_literals};
use sym_paths::execution::{Post, execute};

/// What a path gives that is executed over a vector: its conditions with the vector after it, or its first event.
#[derive(Drop)]
pub enum Outcome {
    Done(Post),
    /// The first operation that is not narrow: the weights of its two sides.
    Wide { left: u128, right: u128 },
    /// The first operation that is narrow and not small: its raw size and its depth.
    Large { units: u64, depth: u32 },
}

/// A path with what it gives.
#[derive(Drop)]
pub struct Way<'a> {
    pub path: &'a Path,
    pub outcome: Outcome,
}

/// What a path of a side gives over a vector. The one refusal is out of memory.
pub fn outcome_of(
    alloc: Global,
    m: &Machine,
    path: &Path,
    side: Side,
    v: &Vector,
) -> Result<Outcome, NoMemory>
    ensures { IfOk result (λ o. outcome_in o ≡ executed m.now (path_of path.now) side v.now) }
{
    match execute(alloc, m, path, side, v) {
        Ok(post) => Ok(Outcome::Done(post)),
        Err(NfStop::Wide { left, right }) => Ok(Outcome::Wide { left, right }),
        Err(NfStop::Large { units, depth }) => Ok(Outcome::Large { units, depth }),
        Err(NfStop::NoMemory) => Err(NoMemory),
    }
}

/// What each path of a side gives over a vector, in order. The one refusal is out of memory.
pub fn ways<'a>(
    alloc: Global,
    m: &Machine,
    paths: &'a [Path],
    side: Side,
    v: &Vector,
) -> Result<Vec<Way<'a>>, NoMemory>
    ensures ways { IfOk result
        (λ ws. map way_in ws.items ≡ map (λ p. (p, executed m.now p side v.now)) (map path_of paths.now)) }
    ensures many { IfOk result (λ ws. length ws.items ≡ length paths.now) }
{
    let mut out = Vec::new(alloc);
    for path in paths {
        out.push(Way {
            path,
            outcome: outcome_of(alloc, m, path, side, v)?,
        })?;
    }
    Ok(out)
}

// The post of an outcome, or its event.
fn post_of(outcome: &Outcome) -> Result<&Post, NfStop>
    ensures { Answers (answer_in_data (λ p. post_in p.now) result) (outcome_in outcome.now) }
{
    match outcome {
        Outcome::Done(post) => Ok(post),
        Outcome::Wide { left, right } => Err(NfStop::Wide {
            left: *left,
            right: *right,
        }),
        Outcome::Large { units, depth } => Err(NfStop::Large {
            units: *units,
            depth: *depth,
        }),
    }
}

// The literals of a fact and those of two lists. The one refusal is out of memory.
fn literals_with(
    alloc: Global,
    fact: &Fact,
    left: &[NLit],
    right: &[NLit],
) -> Result<Vec<NLit>, NoMemory>
    ensures { IfOk result
        (λ ls. map literal_in ls.items ≡ fact.now.literals ++ (map literal_in left.now ++ map literal_in right.now)) }
{
    let mut literals = copied_literals(alloc, fact.conds())?;
    literals.append(&mut copied_literals(alloc, left)?)?;
    literals.append(&mut copied_literals(alloc, right)?)?;
    Ok(literals)
}

// Whether the literals of a fact and those of two lists are refuted. The one refusal is out of memory.
fn is_refuted_with(
    alloc: Global,
    fact: &Fact,
    left: &[NLit],
    right: &[NLit],
) -> Result<bool, NoMemory>
    ensures { IfOk result
        (λ b. b ≡ refuted (fact.now.literals ++ (map literal_in left.now ++ map literal_in right.now))) }
{
    let literals = literals_with(alloc, fact, left, right)?;
    is_refuted(alloc, literals.as_slice())
}

/// Whether what arrives is refuted where a fact holds, the left machine takes a path of one outcome over the fact's vector, and
/// the right machine one of the other.
///
/// `Wide` and `Large` come exactly where one of the outcomes is an event; that of the left path comes first. `NoMemory`: out of
/// memory.
pub fn are_refuted(
    alloc: Global,
    fact: &Fact,
    left: &Outcome,
    right: &Outcome,
) -> Result<bool, NfStop>
    ensures { Answers result (refuted_together fact.now.literals (outcome_in left.now) (outcome_in right.now)) }
{
    let left = post_of(left)?;
    let right = post_of(right)?;
    Ok(is_refuted_with(alloc, fact, left.conds.as_slice(), right.conds.as_slice())?)
}

// The sort of the terms that stand for variables of a sort.
fn sort_of_terms(sort: VariableSort) -> Sort
    ensures { result ≡ sort_of_terms sort }
{
    match sort {
        VariableSort::Scalar => Sort::Scalar,
        VariableSort::Array => Sort::Array,
        VariableSort::Port => Sort::List,
    }
}

// One of two vectors, by the side.
fn vector_of<'a>(side: Side, left: &'a Vector, right: &'a Vector) -> &'a Vector
    ensures { result.now ≡ choose_side side left.now right.now }
{
    match side {
        Side::Left => left,
        Side::Right => right,
    }
}

// Gives a position the form that the vector of its side has. The one refusal is out of memory.
fn put_side(
    left: &Vector,
    right: &Vector,
    position: &FactPosition,
    out: &mut Vector,
) -> Result<(), NoMemory>
    ensures { OnOk result
        (out.new ≡ put_found (position_in position.now).pos
        (form_at (sort_of_terms (position_in position.now).sort) (position_in position.now).pos
        (choose_side (position_in position.now).pos.side left.now right.now)) out.old) }
{
    let from = vector_of(position.pos.side, left, right);
    match from.shared_form(sort_of_terms(position.sort), position.pos) {
        Some(form) => out.put_shared(position.pos, form.try_clone()?),
        None => Ok(()),
    }
}

// The forms of some positions, each from the vector of its side. The one refusal is out of memory.
fn put_sides(
    alloc: Global,
    left: &Vector,
    right: &Vector,
    positions: &[FactPosition],
) -> Result<Vector, NoMemory>
    ensures { IfOk result (λ v. v ≡ put_sides (map position_in positions.now) left.now right.now []) }
{
    let mut out = Vector::with_capacity(alloc, positions.len())?;
    for position in positions {
        put_side(left, right, position, &mut out)?;
    }
    Ok(out)
}

// What two posts over the vector of a fact leave together. The one refusal is out of memory.
fn join_posts(alloc: Global, fact: &Fact, left: &Post, right: &Post) -> Result<Post, NoMemory>
    ensures { IfOk result
        (λ p. Done (post_in p) ≡ joined_by fact.now (Done (post_in left.now)) (Done (post_in right.now))) }
{
    Ok(Post {
        conds: literals_with(alloc, fact, left.conds.as_slice(), right.conds.as_slice())?,
        vector: put_sides(alloc, &left.vector, &right.vector, fact.positions())?,
    })
}

/// What two paths leave of the positions of a fact, the left machine's path of one outcome over the fact's vector, and the right
/// one's of the other: the conditions of `arrive`, and where the fact has all positions of both machines also its forms.
///
/// `Wide` and `Large` come exactly where one of the outcomes is an event; that of the left path comes first. `NoMemory`: out of
/// memory.
pub fn join_outcomes(
    alloc: Global,
    fact: &Fact,
    left: &Outcome,
    right: &Outcome,
) -> Result<Post, NfStop>
    ensures { Answers (answer_in_data post_in result) (joined_by fact.now (outcome_in left.now) (outcome_in right.now)) }
{
    let left = post_of(left)?;
    let right = post_of(right)?;
    Ok(join_posts(alloc, fact, left, right)?)
}
