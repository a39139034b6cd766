//! Equations over held symbols.

ghost use Rattle.std.specs.Prelude.{◌≡◌, cond, Some, None};
ghost use Rattle.nf_trees.specs.NormalTerms.{polynomial_of_symbol};
ghost use Rattle.nf_terms.specs.Computed.{Answers, Done, after};
ghost use Rattle.nf_terms.specs.declared.form.Nf.TheVariants as form;
ghost use Rattle.nf_sums.specs.Operations.{normal_sum};
ghost use Rattle.nf_substitution.specs.Substitution.{polynomial_substituted};
ghost use Rattle.propagate_equations.specs.Equations.{number_held, number_tied_to, form_tied, equation_found};
ghost use Rattle.propagate_equations.specs.EquationSteps.{rebase_tie};

use crate::held_symbols::{form_held, number_held};
use crate::values::{difference_from, tie_to, value_at};
use fs_model::parts::Sort;
use fs_pair::positions::Position;
use nf_substitution::shared_form::SharedForm;
use nf_substitution::subst::Subst;
use nf_substitution::vector::Vector;
use nf_terms::form::Nf;
use nf_terms::poly::Poly;
use nf_terms::stop::NfStop;
use nf_terms::tree::Pos;
use std::alloc::Global;
use sym_facts::entailment::{leaves_form, substitute};
use sym_facts::fact::own_symbol;

// A tie by a difference over the new meanings, where all its symbols are held.
fn held_tie(
    alloc: Global,
    s: &mut Subst<'_>,
    meanings: &Vector,
    difference: &Poly,
    q: &Pos,
) -> Result<Option<Nf>, NfStop>
    requires { s.old.vector ≡ meanings.now }
    ensures answers { Answers result (cond (number_held meanings.now difference.now)
        (after (polynomial_substituted meanings.now difference.now)
        (λ e. after (normal_sum (polynomial_of_symbol q.now) e) (λ r. Done (Some (form.Num r))))) (Done None)) }
    ensures vector { s.new.vector ≡ s.old.vector }
{
    if !number_held(alloc, meanings, difference)? {
        return Ok(None);
    }
    let held = s.poly(alloc, difference)?;
    tie_to(alloc, q, &held)
}

// A number, tied to one position that is freed.
fn tied_to(
    alloc: Global,
    s: &mut Subst<'_>,
    v: &Vector,
    meanings: &Vector,
    number: &Poly,
    q: &Position,
) -> Result<Option<Nf>, NfStop>
    requires { s.old.vector ≡ meanings.now }
    ensures answers { Answers result (number_tied_to v.now meanings.now number.now q.now.sort q.now.pos (Done None)) }
    ensures vector { s.new.vector ≡ s.old.vector }
{
    match q.sort {
        Sort::Scalar => {
            let difference = difference_from(alloc, v, number, &q.pos)?;
            held_tie(alloc, s, meanings, &difference, &q.pos)
        }
        Sort::Array | Sort::Port => Ok(None),
    }
}

// A number, tied to the first position that is freed from which it differs by held symbols alone.
fn number_tied(
    alloc: Global,
    s: &mut Subst<'_>,
    v: &Vector,
    meanings: &Vector,
    number: &Poly,
    freed: &[Position],
) -> Result<Option<Nf>, NfStop>
    requires { s.old.vector ≡ meanings.now }
    ensures answers { Answers result (rebase_tie v.now meanings.now number.now freed.now) }
    ensures vector { s.new.vector ≡ s.old.vector }
{
    for q in freed {
        if let Some(tie) = tied_to(alloc, s, v, meanings, number, q)? {
            return Ok(Some(tie));
        }
    }
    Ok(None)
}

// An array or a list, tied to the first position that is freed that has the same.
fn form_tied(alloc: Global, v: &Vector, form: &Nf, freed: &[Position]) -> Result<Option<Nf>, NfStop>
    ensures { Answers result (Done (form_tied v.now form.now freed.now)) }
{
    for q in freed {
        let value = value_at(alloc, v, q.sort, &q.pos)?;
        if form.is_same(value.form()) {
            return Ok(Some(own_symbol(alloc, q.sort, q.pos)?));
        }
    }
    Ok(None)
}

// The equation of a position that has this form: the form over the new meanings, where all its symbols are held, else a tie.
#[tactic(auto, using(crate::proofs::EquationTurns::ties_in_turn))]
fn new_equation(
    alloc: Global,
    s: &mut Subst<'_>,
    v: &Vector,
    meanings: &Vector,
    form: &Nf,
    freed: &[Position],
) -> Result<Option<Nf>, NfStop>
    requires { s.old.vector ≡ meanings.now }
    ensures answers { Answers result (equation_found v.now meanings.now form.now freed.now) }
    ensures vector { s.new.vector ≡ s.old.vector }
{
    if form_held(alloc, meanings, form)? {
        return Ok(Some(substitute(alloc, s, form)?));
    }
    match form {
        Nf::Num(number) => number_tied(alloc, s, v, meanings, number, freed),
        Nf::Arr(_) | Nf::Seq(_) => form_tied(alloc, v, form, freed),
    }
}

/// The equation of a position that has this form: the form over the new meanings, where all its symbols are held, else a tie to a
/// position that is freed, where there is one. A form that is left as it is is shared.
///
/// `Wide` and `Large` come exactly at the first operation that is not narrow, or narrow and not small. `NoMemory`: out of memory.
pub fn equation_found(
    alloc: Global,
    s: &mut Subst<'_>,
    v: &Vector,
    meanings: &Vector,
    form: &SharedForm,
    freed: &[Position],
) -> Result<Option<SharedForm>, NfStop>
    requires { s.old.vector ≡ meanings.now }
    ensures answers { Answers result (equation_found v.now meanings.now form.now freed.now) }
    ensures vector { s.new.vector ≡ s.old.vector }
{
    if leaves_form(s, form.form()) {
        return Ok(Some(form.try_clone()?));
    }
    match new_equation(alloc, s, v, meanings, form.form(), freed)? {
        Some(equation) => Ok(Some(SharedForm::of(alloc, equation)?)),
        None => Ok(None),
    }
}
