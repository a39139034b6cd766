//! Ties of positions whose equations fail.

ghost use Rattle.std.specs.Prelude.{◌≡◌, cond, map, IfOk, Some, None};
ghost use Rattle.nf_trees.specs.NormalTerms.{polynomial_of_symbol};
ghost use Rattle.nf_trees.specs.Order.{same_polynomial};
ghost use Rattle.nf_terms.specs.Computed.{Answers, Done, after};
ghost use Rattle.nf_terms.specs.declared.form.Nf.TheVariants as form;
ghost use Rattle.nf_sums.specs.Operations.{normal_sum, normal_difference};
ghost use Rattle.nf_substitution.specs.Vectors.{number_at};
ghost use Rattle.nf_substitution.specs.Substitution.{polynomial_substituted};
ghost use Rattle.propagate_equations.specs.Ties.{symbol_like, number_tied_to, is_alike, form_tied, tied_equation};
ghost use Rattle.propagate_equations.specs.TieSteps.{join_tie};
ghost use Rattle.propagate_equations.specs.View.{freed_in};

use crate::values::{difference_from, tie_to};
use nf_substitution::subst::Subst;
use nf_substitution::vector::Vector;
use nf_sums::sums::sub;
use nf_terms::arr::Arr;
use nf_terms::form::Nf;
use nf_terms::poly::Poly;
use nf_terms::seq::Seq;
use nf_terms::stop::{NfStop, NoMemory};
use nf_terms::tree::SeqBase;
use nf_trees::tree::{Base, Pos};
use std::alloc::Global;
use sym_facts::entailment::form_like;

/// A position that a join has freed, and the form that it had.
#[derive(Clone, Copy)]
pub struct Freed<'a> {
    pub pos: Pos,
    pub old: &'a Nf,
}

// The symbol of a position, of the sort of a form.
fn symbol_like(alloc: Global, p: Pos, form: &Nf) -> Result<Nf, NoMemory>
    ensures { IfOk result (λ f. f ≡ symbol_like p form.now) }
{
    match form {
        Nf::Num(_) => Ok(Nf::Num(Poly::symbol(alloc, p)?)),
        Nf::Arr(_) => Ok(Nf::Arr(Arr::bare(alloc, Base::Sym(p)))),
        Nf::Seq(_) => Ok(Nf::Seq(Seq::bare(alloc, SeqBase::Sym(p)))),
    }
}

// The difference of the numbers that a vector has at two positions.
fn arriving_difference(alloc: Global, v: &Vector, p: &Pos, q: &Pos) -> Result<Poly, NfStop>
    ensures { Answers result (normal_difference (number_at v.now p.now) (number_at v.now q.now)) }
{
    let value = v.number(alloc, p)?;
    difference_from(alloc, v, &value, q)
}

// A tie by a difference, where its value is the one that arrives.
fn tie_where_same(
    alloc: Global,
    s: &mut Subst<'_>,
    arriving: &Poly,
    difference: &Poly,
    q: &Pos,
) -> Result<Option<Nf>, NfStop>
    ensures answers { Answers result
        (after (polynomial_substituted s.old.vector difference.now) (λ x. cond (same_polynomial arriving.now x)
        (after (normal_sum (polynomial_of_symbol q.now) difference.now) (λ r. Done (Some (form.Num r)))) (Done None))) }
    ensures vector { s.new.vector ≡ s.old.vector }
{
    let substituted = s.poly(alloc, difference)?;
    if *arriving == substituted {
        tie_to(alloc, q, difference)
    } else {
        Ok(None)
    }
}

// The number of a position, tied to one freed position.
fn tied_to(
    alloc: Global,
    s: &mut Subst<'_>,
    v: &Vector,
    p: &Pos,
    number: &Poly,
    other: &Freed<'_>,
) -> Result<Option<Nf>, NfStop>
    requires { s.old.vector ≡ v.now }
    ensures answers { Answers result
        (number_tied_to v.now p.now number.now (freed_in other.now).pos (freed_in other.now).old (Done None)) }
    ensures vector { s.new.vector ≡ s.old.vector }
{
    match other.old {
        Nf::Num(old) => {
            let difference = sub(alloc, number, old)?;
            let arriving = arriving_difference(alloc, v, p, &other.pos)?;
            tie_where_same(alloc, s, &arriving, &difference, &other.pos)
        }
        Nf::Arr(_) | Nf::Seq(_) => Ok(None),
    }
}

// The number of a position, tied to the first of the freed positions that it can be tied to.
fn number_tied(
    alloc: Global,
    s: &mut Subst<'_>,
    v: &Vector,
    p: &Pos,
    number: &Poly,
    freed: &[Freed<'_>],
) -> Result<Option<Nf>, NfStop>
    requires { s.old.vector ≡ v.now }
    ensures answers { Answers result (join_tie v.now p.now number.now (map freed_in freed.now)) }
    ensures vector { s.new.vector ≡ s.old.vector }
{
    for other in freed {
        if let Some(tie) = tied_to(alloc, s, v, p, number, other)? {
            return Ok(Some(tie));
        }
    }
    Ok(None)
}

// Whether a form and what arrives at its position are those of a freed position.
fn is_alike(
    alloc: Global,
    v: &Vector,
    p: &Pos,
    form: &Nf,
    other: &Freed<'_>,
) -> Result<bool, NoMemory>
    ensures { IfOk result (λ b. b ≡ is_alike v.now p.now form.now (freed_in other.now)) }
{
    if !form.is_same(other.old) {
        return Ok(false);
    }
    let arriving = form_like(alloc, v, p, form)?;
    let others = form_like(alloc, v, &other.pos, other.old)?;
    Ok(arriving.is_same(&others))
}

// The form of a position, tied to the first of the freed positions that is alike.
fn form_tied(
    alloc: Global,
    v: &Vector,
    p: &Pos,
    form: &Nf,
    freed: &[Freed<'_>],
) -> Result<Option<Nf>, NfStop>
    ensures { Answers result (Done (form_tied v.now p.now form.now (map freed_in freed.now))) }
{
    for other in freed {
        if is_alike(alloc, v, p, form, other)? {
            return Ok(Some(symbol_like(alloc, other.pos, form)?));
        }
    }
    Ok(None)
}

/// The new equation of a position whose equation fails, where it is tied to a freed position.
///
/// `Wide` and `Large` come exactly at the first operation that is not narrow, or narrow and not small. `NoMemory`: out of memory.
#[tactic(auto, using(crate::proofs::TieTurns::ties_in_turn))]
pub fn tie_equation(
    alloc: Global,
    s: &mut Subst<'_>,
    v: &Vector,
    p: &Pos,
    form: &Nf,
    freed: &[Freed<'_>],
) -> Result<Option<Nf>, NfStop>
    requires { s.old.vector ≡ v.now }
    ensures answers { Answers result (tied_equation v.now p.now form.now (map freed_in freed.now)) }
    ensures vector { s.new.vector ≡ s.old.vector }
{
    match form {
        Nf::Num(number) => number_tied(alloc, s, v, p, number, freed),
        Nf::Arr(_) | Nf::Seq(_) => form_tied(alloc, v, p, form, freed),
    }
}
