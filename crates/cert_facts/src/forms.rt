//! The texts of the terms and of the conditions of a node.

ghost use Rattle.std.specs.Prelude.{◌≡◌, ◌<◌, length, true, IfOk, OnOk};
ghost use Rattle.nf_terms.specs.Forms.{sort_of_form};
ghost use Rattle.nf_rel.specs.View.{literal_in};
ghost use Rattle.sym_facts.specs.Facts.{may_be_kept};
ghost use Rattle.cert_terms.specs.CertificateNames.{sort_at as sort_of_place};
ghost use Rattle.cert_terms.specs.TextFunctions.{meanings_by};
ghost use Rattle.cert_terms.specs.Within.{FormWithin, LiteralWithin};
ghost use Rattle.cert_terms.specs.View.{find_of};
ghost use Rattle.cert_terms.specs.Repeats.{AreLast};
ghost use Rattle.cert_facts.specs.PartAnswers.{Tells, stop_of};
ghost use Rattle.cert_facts.specs.FactReading.{text_read};

use crate::faults::{CertError, Stop};
use cert_terms::forms::condition_of;
use cert_terms::names::Places;
use cert_terms::repeats::{ReadText, read_at};
use nf_rel::literals::NLit;
use std::alloc::Global;
use sym_facts::shared_form::SharedForm;
use term_values::faults::TermError;
use term_values::names::Names;

// Why node number `node` is refused where one of its texts is.
fn stop_at(node: u32, fault: TermError) -> Stop
    ensures { result ≡ stop_of node fault }
{
    match fault {
        TermError::BadTerm => Stop::Refused(CertError::BadTerm { node }),
        TermError::NumberTooBig => Stop::Refused(CertError::NumberTooBig { node }),
        TermError::UnknownName => Stop::Refused(CertError::UnknownName { node }),
        TermError::SortOf => Stop::Refused(CertError::SortOf { node }),
        TermError::NotNormal => Stop::Refused(CertError::NotNormal { node }),
        TermError::NoMemory => Stop::NoMemory,
    }
}

/// The form of a text of a node at a place, or why the node is refused, which is the first of `BadTerm`, `NumberTooBig`,
/// `UnknownName`, `SortOf` and `NotNormal` that holds of the text. `NoMemory` may come at any time.
#[tactic(auto, using(crate::proofs::Told::stopped))]
pub fn read_form(
    alloc: Global,
    places: &Places<'_>,
    node: u32,
    place: u32,
    text: &str,
    last: &mut Vec<Option<ReadText>>,
) -> Result<SharedForm, Stop>
    requires place { place < length places.now.positions.now }
    requires last { AreLast places.now last.old.items }
    ensures told { Tells (λ f. f) result
        (text_read node ((meanings_by (find_of places.now)).term (sort_of_place places.now.positions.now place) text.now)) }
    ensures sort { IfOk result (λ f. sort_of_form f ≡ sort_of_place places.now.positions.now place) }
    ensures within { IfOk result (FormWithin (find_of places.now)) }
    ensures last { OnOk result (AreLast places.now last.new.items) }
{
    match read_at(alloc, places, place, text, last) {
        Ok(form) => Ok(form),
        Err(fault) => Err(stop_at(node, fault)),
    }
}

/// The literal that a text of a node stands for, or why the node is refused, as `read_form` says.
#[tactic(auto, using(crate::proofs::Told::stopped))]
pub fn read_condition<N: Names>(
    alloc: Global,
    names: &N,
    node: u32,
    text: &[u8],
) -> Result<NLit, Stop>
    ensures told { Tells literal_in result (text_read node ((meanings_by (N.find names.now)).condition text.now)) }
    ensures kept { IfOk result (λ l. may_be_kept (literal_in l) ≡ true) }
    ensures within { IfOk result (λ l. LiteralWithin (N.find names.now) (literal_in l)) }
{
    match condition_of(alloc, names, text) {
        Ok(literal) => Ok(literal),
        Err(fault) => Err(stop_at(node, fault)),
    }
}
