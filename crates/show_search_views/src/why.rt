//! What led to the answer that two machines get.

ghost use Rattle.std.specs.Prelude.{◌≡◌, ◌≤◌, IfOk, None, is_some, option_map};
ghost use Rattle.fs_pair.specs.Interfaces.{interface_fault};
ghost use Rattle.fs_pair.specs.Positions.{positions};
ghost use Rattle.search_tables.specs.SearchTables.{machines};
ghost use Rattle.fsmd_pair_answers.specs.SearchOutcomes.{IsSearchOutcome};
ghost use Rattle.show_search_views.specs.Why.{moves_of, history_of, heading_of, found_lines, why_lines, IsExplanation};

use cert_model::lawful_nodes::points_differ;
use fs_ast::machine::Machine;
use fs_pair::positions::Pairing;
pub use fsmd_pair_answers::answer::PairAnswer;
use fsmd_pair_answers::compare::compare_machines;
use fsmd_pair_answers::searching::search;
use nf_terms::stop::NoMemory;
use search_tables::moves::Move;
use search_tables::outcome::Outcome;
use show_certificate_lines::nodes::certificate_lines;
use show_move_lines::history::history;
use std::alloc::Global;

/// The answer that two machines get, and the lines of what led to it.
#[derive(Drop)]
pub struct Explanation {
    pub lines: Vec<u8>,
    pub answer: PairAnswer,
}

// The moves of a search that stops at an obstacle.
fn moves_of(outcome: &Outcome) -> Option<&[Move]>
    ensures { option_map (λ moves. moves.now) result ≡ moves_of outcome.now }
{
    match outcome {
        Outcome::Closed(_) => None,
        Outcome::Stuck { moves, .. } => Some(moves.as_slice()),
        Outcome::Spin { moves, .. } => Some(moves.as_slice()),
        Outcome::Wide { moves, .. } => Some(moves.as_slice()),
        Outcome::Large { moves, .. } => Some(moves.as_slice()),
        Outcome::Exhausted { moves, .. } => Some(moves.as_slice()),
    }
}

// Whether a search stops at an obstacle.
fn is_stopped(outcome: &Outcome) -> bool
    ensures { result ≡ is_some (moves_of outcome.now) }
{
    match outcome {
        Outcome::Closed(_) => false,
        Outcome::Stuck { .. }
        | Outcome::Spin { .. }
        | Outcome::Wide { .. }
        | Outcome::Large { .. }
        | Outcome::Exhausted { .. } => true,
    }
}

// The history of a search that stops at an obstacle, and nothing of one that closes.
fn history_of(
    alloc: Global,
    a: &Machine,
    b: &Machine,
    p: &Pairing,
    moves: Option<&[Move]>,
) -> Result<Vec<u8>, NoMemory>
    requires { p.now ≡ positions a.now b.now }
    ensures { IfOk result
        (λ lines. lines.items ≡ history_of (machines a.now b.now) (option_map (λ moves. moves.now) moves.entry)) }
{
    match moves {
        Some(moves) => history(alloc, a, b, p, moves),
        None => Ok(Vec::new(alloc)),
    }
}

// What stands before a certificate: whether it was found beyond the search; where nodes share their points, by a third one.
fn heading(found_beyond: bool, apart: bool) -> &'static [u8]
    ensures { result.now ≡ heading_of found_beyond apart }
{
    match (found_beyond, apart) {
        (true, true) => b"a second search finds a certificate:\n",
        (true, false) => b"a third search finds a certificate:\n",
        (false, _) => b"the search finds a certificate:\n",
    }
}

// The lines of the certificate of an answer, where it has one.
fn found_lines(
    alloc: Global,
    a: &Machine,
    b: &Machine,
    found_beyond: bool,
    answer: &PairAnswer,
) -> Result<Vec<u8>, NoMemory>
    ensures { IfOk result (λ lines. lines.items ≡ found_lines found_beyond (machines a.now b.now) answer.now) }
{
    match answer {
        PairAnswer::Equivalent { cert } => certificate_lines(
            alloc,
            heading(found_beyond, points_differ(cert.nodes.as_slice())),
            a,
            b,
            cert.nodes.as_slice(),
        ),
        PairAnswer::Counterexample { .. } => Ok(Vec::new(alloc)),
        PairAnswer::Undecided { .. } => Ok(Vec::new(alloc)),
    }
}

// The lines of what led to an answer.
fn why_lines(
    alloc: Global,
    a: &Machine,
    b: &Machine,
    p: &Pairing,
    outcome: &Outcome,
    answer: &PairAnswer,
) -> Result<Vec<u8>, NoMemory>
    requires { p.now ≡ positions a.now b.now }
    ensures { IfOk result (λ lines. lines.items ≡ why_lines (machines a.now b.now) outcome.now answer.now) }
{
    let mut lines = history_of(alloc, a, b, p, moves_of(outcome))?;
    let found = found_lines(alloc, a, b, is_stopped(outcome), answer)?;
    lines.extend_from_slice(found.as_slice())?;
    Ok(lines)
}

// The answer that two machines get, and the lines of what led to it, by the outcome of their search.
fn explain_search(
    alloc: Global,
    a: &Machine,
    b: &Machine,
    p: &Pairing,
    steps: u64,
    outcome: &Outcome,
) -> Result<Explanation, NoMemory>
    requires paired { p.now ≡ positions a.now b.now }
    requires interface { interface_fault a.now b.now ≡ None }
    requires steps { 1 ≤ steps }
    requires searched { IsSearchOutcome (machines a.now b.now) outcome.now }
    ensures { IfOk result (IsExplanation steps a.now b.now) }
{
    let answer = compare_machines(alloc, a, b, p, steps)?;
    let lines = why_lines(alloc, a, b, p, outcome, &answer)?;
    Ok(Explanation { lines, answer })
}

/// The answer that two machines with the same inputs and outputs get, of runs of at most so many steps, as `compare_machines`
/// gives it, and the lines of what led to it: where the search stops at an obstacle its history, and where a certificate is found
/// the nodes of that. The one refusal is out of memory.
pub fn explain(
    alloc: Global,
    a: &Machine,
    b: &Machine,
    p: &Pairing,
    steps: u64,
) -> Result<Explanation, NoMemory>
    requires paired { p.now ≡ positions a.now b.now }
    requires interface { interface_fault a.now b.now ≡ None }
    requires steps { 1 ≤ steps }
    ensures { IfOk result (IsExplanation steps a.now b.now) }
{
    let outcome = search(alloc, a, b, p)?;
    explain_search(alloc, a, b, p, steps, &outcome)
}
