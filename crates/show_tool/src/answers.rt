//! What each view answers of machines and of certificates.

ghost use Rattle.std.specs.Prelude.{◌≡◌, ◌≤◌, ◌++◌, IfOk, None, false, map};
ghost use Rattle.fs_stores.specs.InputValues.{inputs_of, signatures_of, Serves};
ghost use Rattle.fs_pair.specs.Interfaces.{interface_fault};
ghost use Rattle.fs_pair.specs.Positions.{positions};
ghost use Rattle.cert_model.specs.Lawful.{IsLawful};
ghost use Rattle.cert_model.specs.View.{node_of};
ghost use Rattle.fsmd_answers.specs.ComparisonAnswers.{IsOfPair};
ghost use Rattle.search_tables.specs.SearchTables.{machines};
ghost use Rattle.fsmd_replies.specs.ObstacleTexts.{outcome_text};
ghost use Rattle.fsmd_replies.specs.declared.answer.Answer.TheVariants.{Differs, Undecided};
ghost use Rattle.show_search_views.specs.Why.{answer_behind};
ghost use Rattle.show_tool.specs.Views.{answer_behind_lines, IsOfPicture, IsOfWhy, IsOfInputs, IsOfCertificate, IsOfTrace};

use cert_model::cert::Cert;
use fs_ast::machine::Machine;
use fs_pair::positions::Pairing;
use fs_stores::inputs::Inputs;
use fsmd_answers::compare::compare;
use fsmd_answers::judge::judge;
use fsmd_answers::pair::Pair;
use fsmd_answers::runs::run_machine;
use fsmd_replies::answer::{Answer, Lines};
use fsmd_replies::obstacles::obstacle_line;
use fsmd_replies::reply::equivalent_text;
use search_tables::outcome::Outcome;
use show_inputs_text::differing::differing_inputs;
use show_search_views::obligations::obligation_lines;
use show_search_views::pictures::search_picture;
use show_search_views::why::{PairAnswer, explain};
use show_traces::traces::trace_text;
use std::alloc::{AllocError, Global};

// The most steps of a run from a candidate, where `check` is told none.
const STEPS: u64 = 10_000;

// The lines with others behind them.
fn join_lines(mut lines: Vec<u8>, more: &[u8]) -> Result<Lines, AllocError>
    ensures { IfOk result (λ all. all ≡ lines.items ++ more.now) }
{
    lines.extend_from_slice(more)?;
    Ok(Lines::of(lines))
}

// The answer to two machines that are left undecided, behind the lines of what led to it.
fn undecided_behind(
    alloc: Global,
    pair: &Pair,
    lines: Vec<u8>,
    outcome: &Outcome,
) -> Result<Answer, AllocError>
    ensures { IfOk result
        (λ told. told ≡ Undecided (lines.items ++ outcome_text (machines pair.now.left pair.now.right) outcome.now)) }
{
    match obstacle_line(alloc, &pair.left, &pair.right, outcome) {
        Ok(line) => Ok(Answer::Undecided {
            lines: join_lines(lines, line.as_slice())?,
        }),
        Err(_) => Err(AllocError),
    }
}

// The answer of two machines behind the lines of what led to it.
fn why_answer(
    alloc: Global,
    pair: &Pair,
    lines: Vec<u8>,
    answer: &PairAnswer,
) -> Result<Answer, AllocError>
    ensures { IfOk result
        (λ told. told ≡ answer_behind (machines pair.now.left pair.now.right) lines.items answer.now) }
{
    match answer {
        PairAnswer::Equivalent { cert } => {
            let line = equivalent_text(alloc, cert.nodes.len() as u64)?;
            Ok(Answer::Text {
                lines: join_lines(lines, line.as_bytes())?,
            })
        }
        PairAnswer::Counterexample { lines: more } => Ok(Answer::Differs {
            lines: join_lines(lines, more.as_slice())?,
        }),
        PairAnswer::Undecided { outcome } => undecided_behind(alloc, pair, lines, outcome),
    }
}

/// What `why` answers: what `check` says of two machines, behind the lines of what led to it. The one refusal is out of memory.
pub fn why_machines(alloc: Global, pair: &Pair) -> Result<Answer, AllocError>
    requires paired { pair.now.pairing ≡ positions pair.now.left pair.now.right }
    requires interface { interface_fault pair.now.left pair.now.right ≡ None }
    ensures { IfOk result (IsOfWhy 10000 pair.now.left pair.now.right) }
{
    match explain(alloc, &pair.left, &pair.right, &pair.pairing, STEPS) {
        Ok(why) => why_answer(alloc, pair, why.lines, &why.answer),
        Err(_) => Err(AllocError),
    }
}

/// What `pair` answers: the picture of the search of two machines. The one refusal is out of memory.
pub fn picture_machines(alloc: Global, pair: &Pair) -> Result<Answer, AllocError>
    requires paired { pair.now.pairing ≡ positions pair.now.left pair.now.right }
    requires interface { interface_fault pair.now.left pair.now.right ≡ None }
    ensures { IfOk result (IsOfPicture pair.now.left pair.now.right) }
{
    match search_picture(alloc, &pair.left, &pair.right, &pair.pairing) {
        Ok(text) => Ok(Answer::Text {
            lines: Lines::of(text),
        }),
        Err(_) => Err(AllocError),
    }
}

// The file of inputs that show a difference, or else the lines with which `check` tells of one.
fn inputs_or(alloc: Global, pair: &Pair, lines: Lines) -> Result<Answer, AllocError>
    requires interface { interface_fault pair.now.left pair.now.right ≡ None }
    requires answer { IsOfPair 10000 false pair.now.left pair.now.right (Differs lines) }
    ensures { IfOk result (IsOfInputs 10000 pair.now.left pair.now.right) }
{
    match differing_inputs(alloc, &pair.left, &pair.right, &pair.pairing, STEPS) {
        Ok(Some(file)) => Ok(Answer::Differs {
            lines: Lines::of(file),
        }),
        Ok(None) => Ok(Answer::Differs { lines }),
        Err(_) => Err(AllocError),
    }
}

/// What `inputs` answers: the file of inputs that show a difference of two machines, where `check` tells of one, and else what
/// `check` answers. The one refusal is out of memory.
pub fn differing_machines(alloc: Global, pair: &Pair) -> Result<Answer, AllocError>
    requires paired { pair.now.pairing ≡ positions pair.now.left pair.now.right }
    requires interface { interface_fault pair.now.left pair.now.right ≡ None }
    ensures { IfOk result (IsOfInputs 10000 pair.now.left pair.now.right) }
{
    let answer = compare(alloc, pair, STEPS, false)?;
    match answer {
        Answer::Differs { lines } => inputs_or(alloc, pair, lines),
        _ => Ok(answer),
    }
}

// An answer that is lines, behind others.
fn answer_behind_lines(lines: Vec<u8>, answer: Answer) -> Result<Answer, AllocError>
    ensures { IfOk result (λ told. told ≡ answer_behind_lines lines.items answer) }
{
    match answer {
        Answer::Text { lines: more } => Ok(Answer::Text {
            lines: join_lines(lines, more.bytes())?,
        }),
        Answer::Differs { lines: more } => Ok(Answer::Differs {
            lines: join_lines(lines, more.bytes())?,
        }),
        Answer::Undecided { lines: more } => Ok(Answer::Undecided {
            lines: join_lines(lines, more.bytes())?,
        }),
        other => Ok(other),
    }
}

/// What `certificate` answers: the obligations of a lawful certificate of two machines, by number, and then what `verify` says.
/// The one refusal is out of memory.
pub fn certificate_of(
    alloc: Global,
    a: &Machine,
    b: &Machine,
    p: &Pairing,
    cert: &Cert,
) -> Result<Answer, AllocError>
    requires paired { p.now ≡ positions a.now b.now }
    requires interface { interface_fault a.now b.now ≡ None }
    requires lawful { IsLawful a.now b.now (map node_of cert.now.nodes.items) }
    ensures { IfOk result (IsOfCertificate a.now b.now (map node_of cert.now.nodes.items)) }
{
    match obligation_lines(alloc, a, b, cert.nodes.as_slice()) {
        Ok(lines) => answer_behind_lines(lines, judge(alloc, a, b, p, cert)?),
        Err(_) => Err(AllocError),
    }
}

/// What `trace` answers: the trace of a machine's run of at most so many steps from inputs, and then what `run` says. The one
/// refusal is out of memory.
pub fn trace_machine(
    alloc: Global,
    machine: &Machine,
    inputs: &Inputs,
    steps: u64,
) -> Result<Answer, AllocError>
    requires steps { 1 ≤ steps }
    requires inputs { Serves (signatures_of inputs.now) machine.now }
    ensures { IfOk result (IsOfTrace steps machine.now (inputs_of inputs.now)) }
{
    match trace_text(alloc, machine, inputs, steps) {
        Ok(lines) => answer_behind_lines(lines, run_machine(alloc, machine, inputs, steps)?),
        Err(_) => Err(AllocError),
    }
}
