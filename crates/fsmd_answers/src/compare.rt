//! Compares two machines.

ghost use Rattle.std.specs.Prelude.{◌≡◌, ◌≤◌, ℕ, IfOk, None, map};
ghost use Rattle.fs_pair.specs.Interfaces.{interface_fault};
ghost use Rattle.fs_pair.specs.Positions.{positions};
ghost use Rattle.cert_model.specs.Lawful.{IsLawful};
ghost use Rattle.cert_model.specs.View.{node_of};
ghost use Rattle.cert_writer.specs.WrittenCertificates.{certificate_text};
ghost use Rattle.fsmd_replies.specs.ObstacleTexts.{outcome_text};
ghost use Rattle.search_tables.specs.SearchTables.{machines};
ghost use Rattle.fsmd_replies.specs.declared.answer.Answer.TheVariants.{Undecided};
ghost use Rattle.fsmd_answers.specs.ComparisonAnswers.{AreSame, IsOfPair, text_to_store};

use crate::pair::Pair;
use cert_model::cert::Cert;
use cert_writer::writer::write_cert;
use fsmd_pair_answers::answer::PairAnswer;
use fsmd_pair_answers::compare::compare_machines;
use fsmd_replies::answer::{Answer, Lines};
use fsmd_replies::obstacles::obstacle_line;
use search_tables::outcome::Outcome;
use std::alloc::{AllocError, Global};

// The text of a certificate, where it is to be stored.
fn kept_text(
    alloc: Global,
    pair: &Pair,
    cert: &Cert,
    keeps: bool,
) -> Result<Option<Lines>, AllocError>
    requires paired { pair.now.pairing ≡ positions pair.now.left pair.now.right }
    requires lawful { IsLawful pair.now.left pair.now.right (map node_of cert.now.nodes.items) }
    ensures { IfOk result
        (λ text. text ≡ text_to_store keeps (certificate_text pair.now.left pair.now.right (map node_of cert.now.nodes.items))) }
{
    if !keeps {
        return Ok(None);
    }
    match write_cert(alloc, cert, &pair.left, &pair.right, &pair.pairing) {
        Ok(text) => Ok(Some(Lines::of(text))),
        Err(_) => Err(AllocError),
    }
}

// The answer to two machines that a certificate shows to have the same behaviour.
fn equivalent_answer(
    alloc: Global,
    pair: &Pair,
    cert: &Cert,
    keeps: bool,
) -> Result<Answer, AllocError>
    requires paired { pair.now.pairing ≡ positions pair.now.left pair.now.right }
    requires same { AreSame pair.now.left pair.now.right (map node_of cert.now.nodes.items) }
    ensures { IfOk result (λ answer. (limit : ℕ) → IsOfPair limit keeps pair.now.left pair.now.right answer) }
{
    let nodes = cert.nodes.len() as u32;
    let cert = kept_text(alloc, pair, cert, keeps)?;
    Ok(Answer::Equivalent { nodes, cert })
}

// The answer to two machines that are left undecided: the line of the obstacle of their search.
fn undecided_answer(alloc: Global, pair: &Pair, outcome: &Outcome) -> Result<Answer, AllocError>
    ensures { IfOk result
        (λ answer. answer ≡ Undecided (outcome_text (machines pair.now.left pair.now.right) outcome.now)) }
{
    match obstacle_line(alloc, &pair.left, &pair.right, outcome) {
        Ok(line) => Ok(Answer::Undecided {
            lines: Lines::of(line),
        }),
        Err(_) => Err(AllocError),
    }
}

/// What is answered of two machines with the same inputs and outputs: by a certificate that holds, and where none is found, by
/// runs of at most so many steps from candidate inputs. The text of the certificate comes with the answer where `keeps` says so.
/// The one refusal is out of memory.
pub fn compare(alloc: Global, pair: &Pair, steps: u64, keeps: bool) -> Result<Answer, AllocError>
    requires paired { pair.now.pairing ≡ positions pair.now.left pair.now.right }
    requires interface { interface_fault pair.now.left pair.now.right ≡ None }
    requires steps { 1 ≤ steps }
    ensures { IfOk result (IsOfPair steps keeps pair.now.left pair.now.right) }
{
    match compare_machines(alloc, &pair.left, &pair.right, &pair.pairing, steps) {
        Ok(PairAnswer::Equivalent { cert }) => equivalent_answer(alloc, pair, &cert, keeps),
        Ok(PairAnswer::Counterexample { lines }) => Ok(Answer::Differs {
            lines: Lines::of(lines),
        }),
        Ok(PairAnswer::Undecided { outcome }) => undecided_answer(alloc, pair, &outcome),
        Err(_) => Err(AllocError),
    }
}
