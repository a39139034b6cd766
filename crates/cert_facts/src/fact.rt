//! The fact of a node: its equations and its conditions.

ghost use Rattle.std.specs.Prelude.{◌≡◌, ◌≤◌, false, length, map, IsTrue, IfOk, OnOk};
ghost use Rattle.std.specs.List.{list_all, AllByRecursion};
ghost use Rattle.cert_values.specs.View.{view};
ghost use Rattle.nf_rel.specs.View.{literal_in};
ghost use Rattle.sym_facts.specs.Facts.{may_be_kept, most_literals};
ghost use Rattle.sym_facts.specs.Pairings.{IsFactOf};
ghost use Rattle.cert_values.specs.Shape.{has_many_conditions};
ghost use Rattle.cert_facts.specs.JsonParts.{equations_in, node_text_in};
ghost use Rattle.cert_facts.specs.PartAnswers.{Tells};
ghost use Rattle.cert_facts.specs.FactReading.{unwritten_equation, equations_read, fact_read, node_fact};
ghost use Rattle.cert_terms.specs.Repeats.{AreLast};
ghost use Rattle.cert_terms.specs.View.{find_of};
ghost use Rattle.cert_terms.specs.Within.{LiteralWithin};
ghost use Rattle.cert_facts.specs.View.{terms_in};
ghost use Rattle.cert_facts.specs.Within.{AreEquationsOf};

use crate::context::Context;
use crate::equations::{all_unwritten, put_equations, read_conditions};
use crate::faults::{CertError, Stop};
use crate::parts::{items_at, members_at};
use cert_terms::repeats::ReadText;
use cert_values::value::Value;
use nf_rel::literals::NLit;
use std::alloc::Global;
use sym_facts::fact::{Fact, FactError};
use sym_facts::shared_form::SharedForm;

// The equations of a node.
#[tactic(auto, using(crate::proofs::Facts::unwritten_fit))]
fn read_equations(
    alloc: Global,
    c: &Context<'_, '_>,
    node: u32,
    value: &Value<'_>,
    last: &mut Vec<Option<ReadText>>,
) -> Result<Vec<Option<SharedForm>>, Stop>
    requires { AreLast c.now.places.now last.old.items }
    ensures told { Tells (λ fs. fs.items) result
        (equations_read (terms_in c.now.places.now) node
        (map (unwritten_equation c.now.places.now.format) c.now.places.now.positions.now) (equations_in (view value.now))) }
    ensures kept { IfOk result (λ fs. AreEquationsOf c.now.places.now.positions.now fs.items) }
    ensures last { OnOk result (AreLast c.now.places.now last.new.items) }
{
    let mut forms = all_unwritten(alloc, c.places.format, c.places.positions)?;
    if let Some(members) = members_at(value, "equations") {
        put_equations(alloc, c.places, node, members, last, &mut forms)?;
    }
    Ok(forms)
}

// The fact of these parts, where it is solved.
#[tactic(auto, using(crate::proofs::Facts::fact_parts))]
fn solved_fact(
    alloc: Global,
    c: &Context<'_, '_>,
    node: u32,
    forms: Vec<Option<SharedForm>>,
    conds: Vec<NLit>,
) -> Result<Fact, Stop>
    requires pairing { c.now.pairing.now ≡ c.now.places.now.positions.now }
    requires equations { AreEquationsOf c.now.places.now.positions.now forms.items }
    requires few { length conds.items ≤ most_literals }
    requires kept { IsTrue (list_all may_be_kept (map literal_in conds.items)) }
    requires within { AllByRecursion (LiteralWithin (find_of c.now.places.now)) (map literal_in conds.items) }
    ensures told { Tells (λ f. f) result (fact_read (terms_in c.now.places.now) node forms.items (map literal_in conds.items)) }
    ensures of { IfOk result (λ f. IsFactOf c.now.places.now.positions.now f) }
{
    match Fact::of_shared(alloc, c.pairing, forms, conds) {
        Ok(fact) => Ok(fact),
        Err(FactError::NotSolved { place }) => {
            Err(Stop::Refused(CertError::NotSolved { node, place }))
        }
        Err(FactError::NoMemory) => Err(Stop::NoMemory),
    }
}

/// The fact of a node. Refusals, the first of which is answered: for each equation in byte order of the keys, then for each
/// condition in order, what `put_equations` and `read_conditions` refuse; and `NotSolved` with the place of the first position
/// that has an equation and is mentioned. `NoMemory` may come at any time.
#[tactic(auto, using(crate::proofs::FewConditions::conds_few), unfolding(crate::specs::FactReading::node_fact))]
pub fn read_fact(
    alloc: Global,
    c: &Context<'_, '_>,
    node: u32,
    value: &Value<'_>,
    last: &mut Vec<Option<ReadText>>,
) -> Result<Fact, Stop>
    requires pairing { c.now.pairing.now ≡ c.now.places.now.positions.now }
    requires few { has_many_conditions (view value.now) ≡ false }
    requires last { AreLast c.now.places.now last.old.items }
    ensures told { Tells (λ f. f) result (node_fact (terms_in c.now.places.now) node (node_text_in (view value.now))) }
    ensures of { IfOk result (λ f. IsFactOf c.now.places.now.positions.now f) }
    ensures last { OnOk result (AreLast c.now.places.now last.new.items) }
{
    let forms = read_equations(alloc, c, node, value, last)?;
    let conds = read_conditions(alloc, c.places, node, items_at(value, "conds"))?;
    solved_fact(alloc, c, node, forms, conds)
}
