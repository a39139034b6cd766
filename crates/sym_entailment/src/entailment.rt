//! What of a fact a post entails.

ghost use Rattle.std.specs.Prelude.{◌≡◌, ◌<◌, ◌^◌, map, length, IfOk, Some};
ghost use Rattle.nf_terms.specs.Computed.{Answers};
ghost use Rattle.nf_terms.specs.declared.form.Nf.TheVariants.{Num};
ghost use Rattle.nf_rel.specs.View.{literal_in};
ghost use Rattle.sym_paths.specs.Sequences.{each};
ghost use Rattle.sym_paths.specs.View.{answer_in_data, post_in};
ghost use Rattle.sym_facts.specs.Entailment.{equation_met as equation_is_met, literal_met as literal_is_met};
ghost use Rattle.sym_facts.specs.Entailment.{false_places as places_of_false, entails as entailed};
ghost use Rattle.sym_facts.specs.View.{position_in, missing_in};

use nf_rel::clashes::implied;
use nf_rel::literals::NLit;
use nf_substitution::shared_form::SharedForm;
use nf_substitution::subst::Subst;
use nf_substitution::vector::Vector;
use nf_terms::form::Nf;
use nf_terms::poly::Poly;
use nf_terms::stop::{NfStop, NoMemory};
use nf_terms::tree::Pos;
use std::alloc::Global;
use sym_facts::entailment::{Entail, substitute_literal};
use sym_facts::fact::{Fact, FactPosition};
use sym_paths::execution::Post;

// Whether the arriving number of a position is the one substituted. No term is copied where the vector leaves the number.
fn number_met(
    alloc: Global,
    s: &mut Subst,
    v: &Vector,
    p: &Pos,
    number: &Poly,
) -> Result<bool, NfStop>
    requires { s.old.vector ≡ v.now }
    ensures answers { Answers result (equation_is_met v.now p.now (Some (Num number.now))) }
    ensures vector { s.new.vector ≡ s.old.vector }
{
    if s.leaves(number) {
        return Ok(v.has_number(alloc, p, number)?);
    }
    let value = s.poly(alloc, number)?;
    Ok(v.has_number(alloc, p, &value)?)
}

// Whether the arriving form of a position is the one substituted.
fn form_met(
    alloc: Global,
    s: &mut Subst,
    v: &Vector,
    p: &Pos,
    shared: &SharedForm,
) -> Result<bool, NfStop>
    requires { s.old.vector ≡ v.now }
    ensures answers { Answers result (equation_is_met v.now p.now (Some shared.now)) }
    ensures vector { s.new.vector ≡ s.old.vector }
{
    match shared.form() {
        Nf::Num(number) => number_met(alloc, s, v, p, number),
        Nf::Arr(array) => {
            let value = s.arr(alloc, array)?;
            Ok(v.has_array(alloc, p, &value))
        }
        Nf::Seq(list) => {
            let value = s.seq(alloc, list)?;
            Ok(v.has_list(alloc, p, &value))
        }
    }
}

// Whether the arriving form of a position is its equation's, substituted.
fn equation_met(
    alloc: Global,
    s: &mut Subst,
    v: &Vector,
    position: &FactPosition,
) -> Result<bool, NfStop>
    requires { s.old.vector ≡ v.now }
    ensures answers { Answers result (equation_is_met v.now (position_in position.now).pos (position_in position.now).equation) }
    ensures vector { s.new.vector ≡ s.old.vector }
{
    match &position.equation {
        Some(form) => form_met(alloc, s, v, &position.pos, form),
        None => Ok(true),
    }
}

// Whether equations are met, in order.
fn equations_met(
    alloc: Global,
    s: &mut Subst,
    v: &Vector,
    positions: &[FactPosition],
) -> Result<Vec<bool>, NfStop>
    requires { s.old.vector ≡ v.now }
    ensures answers { Answers (answer_in_data (λ bs. bs.items) result)
        (each (λ p. equation_is_met v.now p.pos p.equation) (map position_in positions.now)) }
    ensures many { IfOk result (λ bs. length bs.items ≡ length positions.now) }
    ensures vector { s.new.vector ≡ s.old.vector }
{
    let mut out = Vec::new(alloc);
    for position in positions {
        out.push(equation_met(alloc, s, v, position)?)?;
    }
    Ok(out)
}

// Whether a literal, substituted, is implied by the arriving conditions.
fn literal_met(alloc: Global, s: &mut Subst, post: &Post, l: &NLit) -> Result<bool, NfStop>
    requires { s.old.vector ≡ (post_in post.now).vector }
    ensures answers { Answers result (literal_is_met (post_in post.now) (literal_in l.now)) }
    ensures vector { s.new.vector ≡ s.old.vector }
{
    let substituted = substitute_literal(alloc, s, l)?;
    Ok(implied(&post.conds, &substituted))
}

// Whether literals are met, in order.
fn literals_met(
    alloc: Global,
    s: &mut Subst,
    post: &Post,
    literals: &[NLit],
) -> Result<Vec<bool>, NfStop>
    requires { s.old.vector ≡ (post_in post.now).vector }
    ensures answers { Answers (answer_in_data (λ bs. bs.items) result)
        (each (λ l. literal_is_met (post_in post.now) l) (map literal_in literals.now)) }
    ensures many { IfOk result (λ bs. length bs.items ≡ length literals.now) }
    ensures vector { s.new.vector ≡ s.old.vector }
{
    let mut out = Vec::new(alloc);
    for literal in literals {
        out.push(literal_met(alloc, s, post, literal)?)?;
    }
    Ok(out)
}

// Whether the equations of a fact are met, in order.
fn fact_equations_met(
    alloc: Global,
    s: &mut Subst,
    post: &Post,
    target: &Fact,
) -> Result<Vec<bool>, NfStop>
    requires { s.old.vector ≡ (post_in post.now).vector }
    ensures answers { Answers (answer_in_data (λ bs. bs.items) result)
        (each (λ p. equation_is_met (post_in post.now).vector p.pos p.equation) target.now.positions) }
    ensures few { IfOk result (λ bs. length bs.items < 2 ^ 32) }
    ensures vector { s.new.vector ≡ s.old.vector }
{
    equations_met(alloc, s, &post.vector, target.positions())
}

// Whether the literals of a fact are met, in order.
fn fact_literals_met(
    alloc: Global,
    s: &mut Subst,
    post: &Post,
    target: &Fact,
) -> Result<Vec<bool>, NfStop>
    requires { s.old.vector ≡ (post_in post.now).vector }
    ensures answers { Answers (answer_in_data (λ bs. bs.items) result)
        (each (λ l. literal_is_met (post_in post.now) l) target.now.literals) }
    ensures few { IfOk result (λ bs. length bs.items < 2 ^ 32) }
{
    literals_met(alloc, s, post, target.conds())
}

// The places of those that are false.
fn false_places(alloc: Global, members: &[bool]) -> Result<Vec<u32>, NoMemory>
    requires { length members.now < 2 ^ 32 }
    ensures { IfOk result (λ out. out.items ≡ places_of_false 0 members.now) }
{
    let mut out = Vec::new(alloc);
    for (place, member) in members.iter().enumerate() {
        if !*member {
            out.push(place as u32)?;
        }
    }
    Ok(out)
}

// The equations and literals of a fact that a post does not entail, over the substitution of its vector, so that an event leaves
// the substitution to the caller.
fn missing(alloc: Global, s: &mut Subst, post: &Post, target: &Fact) -> Result<Entail, NfStop>
    requires { s.old.vector ≡ (post_in post.now).vector }
    ensures { Answers (answer_in_data missing_in result) (entailed (post_in post.now) target.now) }
{
    let equations = fact_equations_met(alloc, s, post, target)?;
    let conds = fact_literals_met(alloc, s, post, target)?;
    Ok(Entail {
        equations: false_places(alloc, &equations)?,
        conds: false_places(alloc, &conds)?,
    })
}

/// The equations and literals of a fact that a post does not entail. An equation is entailed where the arriving form of its
/// position is the same as the equation's with the arriving vector substituted, and a literal where it is implied by the arriving
/// conditions with the arriving vector substituted in it. Each different atom is substituted once.
///
/// `Wide` and `Large` come exactly at the first operation that is not narrow, or narrow and not small: those of equations come
/// first, in the order of positions, and then those of literals. `NoMemory`: out of memory.
pub fn entails(alloc: Global, post: &Post, target: &Fact) -> Result<Entail, NfStop>
    ensures { Answers (answer_in_data missing_in result) (entailed (post_in post.now) target.now) }
{
    let mut s = Subst::new(alloc, &post.vector);
    missing(alloc, &mut s, post, target)
}
