//! States that lead back to themselves with no cut between.

ghost use Rattle.std.specs.Prelude.{◌≡◌, ℕ, ◌<◌, ◌≤◌, ◌+◌, ◌^◌, ◌⊎◌, ◌++◌, length, Some, None, true, false, IfOk};
ghost use Rattle.std.specs.Prelude.{slice_index, nat_lt};
ghost use Rattle.std.specs.List.{slice_get, list_all};
ghost use Rattle.std.specs.Option.{is_some};
ghost use Rattle.std.specs.Result.{OnOk};
ghost use Rattle.fs_rules.specs.TargetWalks.{is_cut, walk_reaches_cut, IsRound, IsTargetList, pass_at, may_pass, walk_verdict};
ghost use Rattle.fs_rules.specs.TargetWalks.{trail};
ghost use Rattle.fs_rules.specs.TargetWalks.{round_of_walk, IsTargetWalk, AreSettledWalks};
ghost use Rattle.fs_rules.specs.declared.uncut_cycles.Pass.{Pass};
ghost use Rattle.fs_rules.specs.declared.uncut_cycles.Verdict.TheVariants.{Ends};

use fs_model::memory::push_value;
use fs_model::name::NoMemory;
use std::alloc::Global;

// When a state was passed: in which walk, and after how many steps.
#[derive(Clone, Copy)]
struct Pass {
    walk: usize,
    step: usize,
}

// Where a walk ended: at a cut, that many steps after its start, or never.
#[derive(Clone, Copy)]
enum Verdict {
    Ends(usize),
    Endless,
}

// The walks so far, and the states that were found to lead back to themselves.
#[derive(Drop)]
struct Walks {
    passes: Vec<Option<Pass>>,
    verdicts: Vec<Verdict>,
    found: Vec<usize>,
}

// Where a walk stopped, and after how many steps.
#[derive(Clone, Copy)]
struct Stop {
    end: usize,
    steps: usize,
}

/// The states that lead back to themselves with no cut between. Each step is by `next`. The one refusal is out of memory.
pub fn find_endless(alloc: Global, next: &[usize], cut: &[bool]) -> Result<Vec<usize>, NoMemory>
    requires { IsTargetList next.now cut.now }
    ensures inside { IfOk result (λ found. list_all (λ q. nat_lt q (length next.now)) found.items ≡ true) }
    ensures rounds { IfOk result (λ found. (k q : ℕ) → slice_get found.items k ≡ Some q → IsRound next.now cut.now q) }
    ensures all { IfOk result
        (λ found. (q : ℕ) → q < length next.now → IsRound next.now cut.now q → (k : ℕ) × (slice_get found.items k ≡ Some q)) }
    ensures reach { IfOk result
        (λ found. length found.items ≡ 0 → (q : ℕ) → q < length next.now
        → walk_reaches_cut next.now cut.now (length next.now) q ≡ true) }
{
    let mut walks = Walks {
        passes: none_passed(alloc, next.len())?,
        verdicts: Vec::new(alloc),
        found: Vec::new(alloc),
    };
    for start in 0..next.len() {
        visit(next, cut, start, &mut walks)?;
    }
    Ok(walks.found)
}

// No state is passed.
fn none_passed(alloc: Global, count: usize) -> Result<Vec<Option<Pass>>, NoMemory>
    ensures none { IfOk result (λ out. (q : ℕ) → pass_at out.items q ≡ None) }
    ensures count { IfOk result (λ out. length out.items ≡ count) }
{
    let mut out = Vec::new(alloc);
    'none: for _ in 0..count {
        push_value(&mut out, None)?;
    }
    Ok(out)
}

// Walks from a state, and settles where that leads.
fn visit(next: &[usize], cut: &[bool], start: usize, walks: &mut Walks) -> Result<(), NoMemory>
    requires graph { IsTargetList next.now cut.now }
    requires start { start < length next.now }
    requires settled { AreSettledWalks next.now cut.now walks.old.passes.items walks.old.verdicts.items walks.old.found.items }
    ensures settled { OnOk result
        (AreSettledWalks next.now cut.now walks.new.passes.items walks.new.verdicts.items walks.new.found.items) }
    ensures seen { OnOk result ((is_cut cut.now start ≡ true) ⊎ (is_some (pass_at walks.new.passes.items start) ≡ true)) }
    ensures keeps { OnOk result
        ((q : ℕ) → is_some (pass_at walks.old.passes.items q) ≡ true → is_some (pass_at walks.new.passes.items q) ≡ true) }
{
    let walk = walks.verdicts.len();
    let stop = take_walk(next, cut, start, walk, &mut walks.passes);
    let pass = walks.passes[stop.end];
    let verdict = judge(cut[stop.end], pass, stop.steps, walks.verdicts.as_slice());
    add_round(next, stop, walk, pass, &mut walks.found)?;
    push_value(&mut walks.verdicts, verdict)
}

// Passes states from one on, up to a cut or to a state that was passed.
fn take_walk(
    next: &[usize],
    cut: &[bool],
    start: usize,
    walk: usize,
    passes: &mut Vec<Option<Pass>>,
) -> Stop
    requires graph { IsTargetList next.now cut.now }
    requires start { start < length next.now }
    requires same { length passes.old.items ≡ length next.now }
    ensures walk { IsTargetWalk next.now cut.now start walk passes.old.items passes.new.items result.end result.steps }
    ensures stops { may_pass cut.now passes.new.items result.end ≡ false }
{
    let mut end = start;
    let mut steps = 0;
    while may_pass(cut, passes, end) {
        passes[end] = Some(Pass { walk, step: steps });
        end = next[end];
        steps += 1;
    }
    Stop { end, steps }
}

// Whether a walk goes on from a state.
fn may_pass(cut: &[bool], passes: &Vec<Option<Pass>>, state: usize) -> bool
    requires cut { state < length cut.now }
    requires passes { state < length passes.now.items }
    ensures { result ≡ may_pass cut.now passes.now.items state }
{
    !cut[state] && passes[state].is_none()
}

// What a walk comes to.
fn judge(at_cut: bool, pass: Option<Pass>, steps: usize, verdicts: &[Verdict]) -> Verdict
    requires { (p : Pass) (total : ℕ) → pass ≡ Some p → slice_get verdicts.now p.walk ≡ Some (Ends total)
        → (p.step ≤ total) × (total + steps < 2 ^ 63) }
    ensures { result ≡ walk_verdict at_cut pass steps verdicts.now }
{
    if at_cut {
        return Verdict::Ends(steps);
    }
    let Some(pass) = pass else {
        return Verdict::Endless;
    };
    match verdicts.get(pass.walk) {
        Some(Verdict::Ends(total)) => Verdict::Ends(*total - pass.step + steps),
        _ => Verdict::Endless,
    }
}

// Adds the states of a round, where a walk closed one.
fn add_round(
    next: &[usize],
    stop: Stop,
    walk: usize,
    pass: Option<Pass>,
    found: &mut Vec<usize>,
) -> Result<(), NoMemory>
    requires leads { (q : ℕ) → q < length next.now → slice_index next.now q < length next.now }
    requires end { stop.end < length next.now }
    ensures { OnOk result (found.new.items ≡ found.old.items ++ round_of_walk next.now walk stop.end stop.steps pass) }
{
    match pass {
        Some(pass) if pass.walk == walk => {
            add_trail(next, stop.end, stop.steps.saturating_sub(pass.step), found)
        }
        _ => Ok(()),
    }
}

// Adds the states of some steps.
fn add_trail(
    next: &[usize],
    start: usize,
    steps: usize,
    found: &mut Vec<usize>,
) -> Result<(), NoMemory>
    requires leads { (q : ℕ) → q < length next.now → slice_index next.now q < length next.now }
    requires start { start < length next.now }
    ensures { OnOk result (found.new.items ≡ found.old.items ++ trail next.now steps start) }
{
    let mut at = start;
    'trail: for _ in 0..steps {
        push_value(found, at)?;
        at = next[at];
    }
    Ok(())
}
