//! The equations and the conditions of a node.

ghost use Rattle.std.specs.Prelude.{◌≡◌, ◌<◌, [], length, map, IsTrue, IfOk, OnOk};
ghost use Rattle.std.specs.List.{list_all, AllByRecursion};
ghost use Rattle.cert_values.specs.JsonTexts.{named_texts_of};
ghost use Rattle.cert_values.specs.View.{items_view, members_view};
ghost use Rattle.nf_rel.specs.View.{literal_in};
ghost use Rattle.sym_facts.specs.Facts.{may_be_kept};
ghost use Rattle.cert_facts.specs.JsonParts.{texts_of};
ghost use Rattle.cert_terms.specs.CertificateNames.{name_place, place_by_key};
ghost use Rattle.cert_terms.specs.View.{place_in_tables, find_of};
ghost use Rattle.cert_terms.specs.Repeats.{AreLast};
ghost use Rattle.cert_terms.specs.Within.{LiteralWithin};
ghost use Rattle.cert_facts.specs.PartAnswers.{Tells};
ghost use Rattle.cert_facts.specs.FactReading.{known_place as known, unwritten_equation as unwritten_at, unwritten_of};
ghost use Rattle.cert_facts.specs.FactReading.{equation_put, equations_read, conditions_read};
ghost use Rattle.cert_facts.specs.View.{terms_in};
ghost use Rattle.cert_facts.specs.Within.{AreEquationsOf};

use crate::faults::{CertError, Stop};
use crate::forms::{read_condition, read_form};
use crate::parts::text_of;
use cert_terms::names::{Places, is_in_format, place_of_key};
use cert_terms::repeats::ReadText;
use cert_values::value::Value;
use fs_model::parts::Sort;
use fs_pair::positions::Position;
use nf_rel::literals::NLit;
use nf_terms::form::Nf;
use nf_terms::seq::Seq;
use nf_terms::stop::NoMemory;
use nf_terms::tree::SeqBase;
use serde_json::Map;
use std::alloc::Global;
use sym_facts::shared_form::SharedForm;

// The equation of a position without key. The one refusal is out of memory.
fn equation_without_key(
    alloc: Global,
    format: u64,
    sort: Sort,
) -> Result<Option<SharedForm>, NoMemory>
    ensures { IfOk result (λ equation. equation ≡ unwritten_of format sort) }
{
    if is_in_format(format, sort) {
        return Ok(None);
    }
    let empty = Nf::Seq(Seq::bare(alloc, SeqBase::Empty));
    Ok(Some(SharedForm::of(alloc, empty)?))
}

/// The equations of positions without keys: none, and of a port in format 1 the empty list. The one refusal is out of memory.
pub fn all_unwritten(
    alloc: Global,
    format: u64,
    positions: &[Position],
) -> Result<Vec<Option<SharedForm>>, NoMemory>
    ensures same { IfOk result (λ out. out.items ≡ map (unwritten_at format) positions.now) }
{
    let mut out = Vec::new(alloc);
    for position in positions {
        out.push(equation_without_key(alloc, format, position.sort)?)?;
    }
    Ok(out)
}

// The place that a key of a node names.
fn known_place(places: &Places<'_>, node: u32, key: &[u8]) -> Result<u32, Stop>
    ensures told { Tells (λ k. k) result
        (known node (place_by_key (name_place (place_in_tables places.now) places.now.positions.now places.now.format) key.now)) }
    ensures in_range { IfOk result (λ k. k < length places.now.positions.now) }
{
    match place_of_key(places, key) {
        Some(place) => Ok(place),
        None => Err(Stop::Refused(CertError::UnknownName { node })),
    }
}

// Puts an equation of a node at its place.
#[tactic(auto, using(crate::proofs::Facts::counted))]
fn put_equation(
    alloc: Global,
    places: &Places<'_>,
    node: u32,
    key: &[u8],
    text: &str,
    last: &mut Vec<Option<ReadText>>,
    forms: &mut Vec<Option<SharedForm>>,
) -> Result<(), Stop>
    requires last { AreLast places.now last.old.items }
    requires forms { AreEquationsOf places.now.positions.now forms.old.items }
    ensures told { Tells (λ _. forms.new.items) result
        (equation_put (terms_in places.now) node forms.old.items (key.now, text.now)) }
    ensures kept { OnOk result (AreEquationsOf places.now.positions.now forms.new.items) }
    ensures last { OnOk result (AreLast places.now last.new.items) }
{
    let place = known_place(places, node, key)?;
    let form = read_form(alloc, places, node, place, text, last)?;
    forms[place as usize] = Some(form);
    Ok(())
}

/// Puts the equations of a node at their places, in the order of the keys. Of the first key that names no position, or whose
/// term is at fault, comes the refusal: `UnknownName`, or what `read_form` refuses.
pub fn put_equations(
    alloc: Global,
    places: &Places<'_>,
    node: u32,
    members: &Map<&str, Value<'_>>,
    last: &mut Vec<Option<ReadText>>,
    forms: &mut Vec<Option<SharedForm>>,
) -> Result<(), Stop>
    requires last { AreLast places.now last.old.items }
    requires forms { AreEquationsOf places.now.positions.now forms.old.items }
    ensures told { Tells (λ _. forms.new.items) result
        (equations_read (terms_in places.now) node forms.old.items (named_texts_of (members_view members.now.entries))) }
    ensures kept { OnOk result (AreEquationsOf places.now.positions.now forms.new.items) }
    ensures last { OnOk result (AreLast places.now last.new.items) }
{
    for (key, value) in members.iter() {
        put_equation(
            alloc,
            places,
            node,
            key.as_bytes(),
            text_of(value),
            last,
            forms,
        )?;
    }
    Ok(())
}

/// The conditions of a node, in order, or what `read_condition` refuses of the first that is at fault.
pub fn read_conditions(
    alloc: Global,
    places: &Places<'_>,
    node: u32,
    items: &[Value<'_>],
) -> Result<Vec<NLit>, Stop>
    ensures told { Tells (λ ls. map literal_in ls.items) result
        (conditions_read (terms_in places.now) node [] (texts_of (items_view items.now))) }
    ensures count { IfOk result (λ ls. length ls.items ≡ length items.now) }
    ensures kept { IfOk result (λ ls. IsTrue (list_all may_be_kept (map literal_in ls.items))) }
    ensures within { IfOk result (λ ls. AllByRecursion (LiteralWithin (find_of places.now)) (map literal_in ls.items)) }
{
    let mut out = Vec::new(alloc);
    for item in items {
        out.push(read_condition(alloc, places, node, text_of(item).as_bytes())?)?;
    }
    Ok(out)
}
