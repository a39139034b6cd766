//! The rules on branches and on endless lines, which are looked at where no other rule is broken.

ghost use Rattle.std.specs.Prelude.{◌≡◌, ◌<◌, ◌||◌, ◌==◌, ℕ, [], ◌∷◌, length, map, nat_lt, IfOk};
ghost use Rattle.fs_model.specs.SoundMachines.{first_transition_target, is_cutpoint};
ghost use Rattle.fs_rules.specs.FirstFault.{earliest};
ghost use Rattle.fs_branches.specs.NumberedParts.{resolved_transition, resolved_state, state_with_line};
ghost use Rattle.fs_rules.specs.TargetWalks.{is_cut};
ghost use Rattle.fs_model.specs.Trees.{tree_of_transitions, count_leaves};
ghost use Rattle.fs_ast.specs.Shapes.{forked_faults, endless_faults, skeleton, LeadOn, IsFirstOfShapes};

use fs_branches::resolve::{State, Transition};
use fs_branches::trees::count_leaves;
use fs_model::limits::BRANCH_LIMIT;
use fs_model::memory::push_value;
use fs_model::name::NoMemory;
use fs_rules::check::{CheckFault, CheckRule};
use fs_rules::faults::Faults;
use fs_rules::uncut_cycles::find_endless;
use std::alloc::Global;

/// The first broken rule on branches or endless lines.
pub fn check_shapes(
    alloc: Global,
    states: &[State],
    reset: usize,
) -> Result<Option<CheckFault>, NoMemory>
    requires leads { LeadOn (map state_with_line states.now) }
    requires reset { reset < length states.now }
    ensures { IfOk result (λ first. IsFirstOfShapes (map state_with_line states.now) reset first) }
{
    let mut faults = Faults::new();
    note_forked(states, &mut faults);
    let next = first_targets(alloc, states)?;
    let cut = cutpoints(alloc, states, reset)?;
    let endless = find_endless(alloc, next.as_slice(), cut.as_slice())?;
    note_endless(states, endless.as_slice(), &mut faults);
    Ok(faults.first)
}

// Notes each state that has too many branches.
fn note_forked(states: &[State], faults: &mut Faults)
    ensures { faults.new.first ≡ earliest faults.old.first (forked_faults (map state_with_line states.now)) }
{
    for state in states {
        let forked = count_leaves(state.lines.as_slice()) > BRANCH_LIMIT;
        faults.note_where(forked, CheckRule::TooManyBranches, state.line);
    }
}

// Notes states on endless lines.
fn note_endless(states: &[State], endless: &[usize], faults: &mut Faults)
    ensures { faults.new.first ≡ earliest faults.old.first (endless_faults (map state_with_line states.now) endless.now) }
{
    for place in endless {
        note_endless_at(states, *place, faults);
    }
}

// Notes a state on an endless line.
fn note_endless_at(states: &[State], place: usize, faults: &mut Faults)
    ensures { faults.new.first ≡ earliest faults.old.first (endless_faults (map state_with_line states.now) (place ∷ [])) }
{
    match states.get(place) {
        None => {}
        Some(state) => faults.note(CheckRule::EndlessLine, state.line),
    }
}

// Where the first transition of each state leads.
fn first_targets(alloc: Global, states: &[State]) -> Result<Vec<usize>, NoMemory>
    ensures { IfOk result (λ next. next.items ≡ map (λ s. first_transition_target (resolved_state s).transitions) states.now) }
{
    let mut next = Vec::new(alloc);
    for state in states {
        push_value(&mut next, first_transition_target(state.lines.as_slice()))?;
    }
    Ok(next)
}

// Where the first of some transitions leads.
fn first_transition_target(lines: &[Transition]) -> usize
    ensures { result ≡ first_transition_target (map resolved_transition lines.now) }
{
    match lines {
        [] => 0,
        [first, ..] => first.target.0 as usize,
    }
}

// Whether a state at a place cuts paths.
fn cuts(state: &State, place: usize, reset: usize) -> bool
    ensures { result ≡ (place == reset || nat_lt 1 (count_leaves (tree_of_transitions (resolved_state state.now).transitions))) }
{
    place == reset || count_leaves(state.lines.as_slice()) > 1
}

// Whether each state cuts paths: the reset state does, and each that has more than one branch.
fn cutpoints(alloc: Global, states: &[State], reset: usize) -> Result<Vec<bool>, NoMemory>
    ensures count { IfOk result (λ cut. length cut.items ≡ length states.now) }
    ensures cuts { IfOk result
        (λ cut. (q : ℕ) → q < length states.now
        → is_cut cut.items q ≡ is_cutpoint (skeleton (map state_with_line states.now) reset) q) }
{
    let mut cut = Vec::new(alloc);
    for (place, state) in states.iter().enumerate() {
        cut.push(cuts(state, place, reset))?;
    }
    Ok(cut)
}
