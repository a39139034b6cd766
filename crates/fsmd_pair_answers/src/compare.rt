//! Compares two machines.

ghost use Rattle.std.specs.Prelude.{◌≡◌, ◌≤◌, None, IfOk};
ghost use Rattle.fs_model.specs.Runs.{SameBehaviour};
ghost use Rattle.fs_pair.specs.Interfaces.{interface_fault};
ghost use Rattle.fs_pair.specs.Positions.{positions};
ghost use Rattle.cert_bisimulation.specs.Alike.{WhereAlike};
ghost use Rattle.search_tables.specs.SearchTables.{machines};
ghost use Rattle.fsmd_pair_answers.specs.PairAnswers.{IsLeftOpen, StopsWith, IsPairAnswer, IfEquivalent, IsClosedOrLimit};

use crate::answer::PairAnswer;
use crate::beyond::find_beyond;
use crate::candidates::{counterexample, differ_soon};
use cert_model::laws::obligations_give_same_behaviour;
use fs_ast::machine::Machine;
use fs_pair::positions::Pairing;
use nf_terms::stop::NoMemory;
use search_laws::searching::search;
use search_tables::outcome::Outcome;
use std::alloc::Global;

// What two machines get that no certificate shows to have the same behaviour: by stated candidate inputs, and where none shows a
// difference by how their search stopped. The one refusal is out of memory.
fn try_candidates(
    alloc: Global,
    a: &Machine,
    b: &Machine,
    p: &Pairing,
    steps: u64,
    outcome: Outcome,
) -> Result<PairAnswer, NoMemory>
    requires paired { p.now ≡ positions a.now b.now }
    requires interface { interface_fault a.now b.now ≡ None }
    requires steps { 1 ≤ steps }
    requires stops { StopsWith (machines a.now b.now) outcome }
    ensures answers { IfOk result (IsPairAnswer steps a.now b.now) }
    ensures same { IfOk result (IfEquivalent (SameBehaviour a.now b.now)) }
{
    match counterexample(alloc, a, b, p, steps)? {
        Some(lines) => Ok(PairAnswer::Counterexample { lines }),
        None => Ok(PairAnswer::Undecided { outcome }),
    }
}

// What two machines get of which the search leaves open whether they have the same behaviour. Most that differ do so on one of
// the first candidates: then no certificate is looked for. The one refusal is out of memory.
fn go_beyond(
    alloc: Global,
    a: &Machine,
    b: &Machine,
    p: &Pairing,
    steps: u64,
    outcome: Outcome,
) -> Result<PairAnswer, NoMemory>
    requires paired { p.now ≡ positions a.now b.now }
    requires interface { interface_fault a.now b.now ≡ None }
    requires steps { 1 ≤ steps }
    requires open { IsLeftOpen (machines a.now b.now) }
    requires stops { StopsWith (machines a.now b.now) outcome }
    ensures answers { IfOk result (IsPairAnswer steps a.now b.now) }
    ensures same { IfOk result (IfEquivalent (SameBehaviour a.now b.now)) }
{
    if differ_soon(alloc, a, b, p, steps)? {
        return try_candidates(alloc, a, b, p, steps, outcome);
    }
    obligations_give_same_behaviour();
    match find_beyond(alloc, a, b, p)? {
        Some(cert) => Ok(PairAnswer::Equivalent { cert }),
        None => try_candidates(alloc, a, b, p, steps, outcome),
    }
}

/// What two machines with the same inputs and outputs get: first by a search for a certificate; where that meets outputs that
/// differ, or a machine alone in a cycle, and the first 256 candidate inputs show no difference within 1,000 steps, by a second
/// search, whose certificate is judged; and else by candidate inputs, with runs of at most so many steps.
///
/// `Equivalent` comes where the first search closes, or where it is left open and all obligations of a certificate of the second
/// search hold; then both have the same behaviour. `Counterexample` tells of the first stated candidate from which both runs end,
/// within the steps and within 128 bits, and an output differs: `counterexample`, a line `NAME = VALUE` for each input, and both
/// sides' outputs. Where no stated candidate shows a difference, `Undecided` has the outcome of the first search: its obstacle.
/// Where a limit stops the first search, there is no second one. Machines that differ only in the names of their states and in
/// how basic blocks are cut into states, and of whose reset states both test or neither does, are alike: these get `Equivalent`
/// by the first search, or `Undecided` by a limit. The one refusal is out of memory.
pub fn compare_machines(
    alloc: Global,
    a: &Machine,
    b: &Machine,
    p: &Pairing,
    steps: u64,
) -> Result<PairAnswer, NoMemory>
    requires paired { p.now ≡ positions a.now b.now }
    requires interface { interface_fault a.now b.now ≡ None }
    requires steps { 1 ≤ steps }
    ensures answers { IfOk result (IsPairAnswer steps a.now b.now) }
    ensures same { IfOk result (IfEquivalent (SameBehaviour a.now b.now)) }
    ensures alike { IfOk result (λ answer. WhereAlike a.now b.now (IsClosedOrLimit (machines a.now b.now) answer)) }
{
    let _left = a.vars(); // These two calls tell the proof that both machines are sound.
    let _right = b.vars();
    obligations_give_same_behaviour();
    let outcome = search(alloc, a, b, p)?;
    match outcome {
        Outcome::Closed(cert) => Ok(PairAnswer::Equivalent { cert }),
        Outcome::Stuck { .. } | Outcome::Spin { .. } => go_beyond(alloc, a, b, p, steps, outcome),
        Outcome::Wide { .. } | Outcome::Large { .. } | Outcome::Exhausted { .. } => {
            try_candidates(alloc, a, b, p, steps, outcome)
        }
    }
}
