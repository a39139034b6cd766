//! Equations that stand at one place in node after node, as most do: their text is read once.

ghost use Rattle.std.specs.Prelude.{◌≡◌, ◌<◌, length, option_map, IfOk, IfSome, OnOk};
ghost use Rattle.nf_terms.specs.Forms.{sort_of_form};
ghost use Rattle.cert_terms.specs.CertificateNames.{sort_at as sort_of_place};
ghost use Rattle.cert_terms.specs.TextFunctions.{meanings_by};
ghost use Rattle.cert_terms.specs.TextAnswers.{TellsText};
ghost use Rattle.cert_terms.specs.Repeats.{IsReadAs, last_at, AreLast};
ghost use Rattle.cert_terms.specs.View.{find_of};
ghost use Rattle.cert_terms.specs.Within.{FormWithin};

use crate::forms::term_of;
use crate::names::{Places, sort_of_terms};
use fs_pair::positions::Position;
use nf_terms::stop::NoMemory;
use nf_terms::symbols::Sort as TermSort;
use std::alloc::Global;
use sym_facts::shared_form::SharedForm;
use term_values::faults::TermError;

/// A text and the form that it stands for, which each fact with it shares.
#[derive(Drop)]
pub struct ReadText {
    pub text: String,
    pub form: SharedForm,
}

/// No text at any place. The one refusal is out of memory.
#[tactic(auto, using(crate::proofs::Repeated::none_read))]
pub fn none_read(alloc: Global, places: &Places<'_>) -> Result<Vec<Option<ReadText>>, NoMemory>
    ensures { IfOk result (λ last. AreLast places.now last.items) }
{
    let mut last = Vec::new(alloc);
    for _ in 0..places.positions.len() {
        last.push(None)?;
    }
    Ok(last)
}

// The text that was read last at a place, if there is one.
fn last_at(last: &[Option<ReadText>], place: u32) -> Option<&ReadText>
    ensures { option_map (λ r. r.now) result ≡ last_at last.now place }
{
    match last.get(place as usize) {
        Some(Some(read)) => Some(read),
        Some(None) | None => None,
    }
}

// The sort of the terms at a place.
fn sort_at(positions: &[Position], place: u32) -> TermSort
    ensures { result ≡ sort_of_place positions.now place }
{
    match positions.get(place as usize) {
        Some(position) => sort_of_terms(position.sort),
        None => TermSort::Scalar,
    }
}

// The form of a text at a place, where that text was read last there.
fn find_repeated<'r>(
    places: &Places<'_>,
    place: u32,
    text: &str,
    last: &'r [Option<ReadText>],
) -> Option<&'r SharedForm>
    requires { AreLast places.now last.now }
    ensures { IfSome result (λ f. IsReadAs places.now place text.now f.now) }
{
    let read = last_at(last, place)?;
    if read.text.as_str() == text {
        Some(&read.form)
    } else {
        None
    }
}

// Keeps a text as the one that was read last at a place, with its form. The one refusal is out of memory.
fn keep(
    alloc: Global,
    places: &Places<'_>,
    place: u32,
    text: &str,
    form: &SharedForm,
    last: &mut Vec<Option<ReadText>>,
) -> Result<(), NoMemory>
    requires place { place < length places.now.positions.now }
    requires read { IsReadAs places.now place text.now form.now }
    requires last { AreLast places.now last.old.items }
    ensures { OnOk result (AreLast places.now last.new.items) }
{
    let text = String::from_str(alloc, text)?;
    last[place as usize] = Some(ReadText {
        text,
        form: form.try_clone()?,
    });
    Ok(())
}

// The form of a text at a place at which another one was read last, or why the text is refused.
fn read_new(
    alloc: Global,
    places: &Places<'_>,
    place: u32,
    text: &str,
    last: &mut Vec<Option<ReadText>>,
) -> Result<SharedForm, TermError>
    requires place { place < length places.now.positions.now }
    requires last { AreLast places.now last.old.items }
    ensures told { TellsText (λ f. f) result
        ((meanings_by (find_of places.now)).term (sort_of_place places.now.positions.now place) text.now) }
    ensures sort { IfOk result (λ f. sort_of_form f ≡ sort_of_place places.now.positions.now place) }
    ensures within { IfOk result (FormWithin (find_of places.now)) }
    ensures last { OnOk result (AreLast places.now last.new.items) }
{
    let sort = sort_at(places.positions, place);
    let form = SharedForm::of(alloc, term_of(alloc, places, sort, text.as_bytes())?)?;
    keep(alloc, places, place, text, &form, last)?;
    Ok(form)
}

/// The form of a text at a place, or why the text is refused.
pub fn read_at(
    alloc: Global,
    places: &Places<'_>,
    place: u32,
    text: &str,
    last: &mut Vec<Option<ReadText>>,
) -> Result<SharedForm, TermError>
    requires place { place < length places.now.positions.now }
    requires last { AreLast places.now last.old.items }
    ensures told { TellsText (λ f. f) result
        ((meanings_by (find_of places.now)).term (sort_of_place places.now.positions.now place) text.now) }
    ensures sort { IfOk result (λ f. sort_of_form f ≡ sort_of_place places.now.positions.now place) }
    ensures within { IfOk result (FormWithin (find_of places.now)) }
    ensures last { OnOk result (AreLast places.now last.new.items) }
{
    match find_repeated(places, place, text, last.as_slice()) {
        Some(form) => Ok(form.try_clone()?),
        None => read_new(alloc, places, place, text, last),
    }
}
