//! The states of both machines.

ghost use Rattle.std.specs.Prelude.{◌≡◌, ◌<◌, ◌≤◌, ◌+◌, ◌∷◌, ◌++◌, [], true, map, codes, None, IfOk};
ghost use Rattle.fs_model.specs.Words.{is_name};
ghost use Rattle.fs_model.specs.Expressions.{Variable};
ghost use Rattle.fs_model.specs.View.{named_assignment, source_transition_of, source_state_of};
ghost use Rattle.fs_generated.specs.Generated.{state, entry_name, head_name, body_name, summand, take_summand, add_to_sum};
ghost use Rattle.fs_generated.specs.Generated.{count_down, entry_state, head, body_state, last_state, generated_states};
ghost use Rattle.fs_generated.specs.Generated.{letter_assignment, transition, left_round, right_round};
ghost use Rattle.fs_generated.specs.Sides.{round_of};

use crate::names::{body_name, entry_name, head_name};
use crate::parts::{
    add_to_sum, assign, count_down, one, summand, take_summand, transition, turn, variable,
    with_last,
};
use fs_model::name::{Name, NoMemory};
use fs_model::parts::{Assign, RawLine, RawState};
use std::alloc::Global;

// Which of the two machines.
#[derive(Clone, Copy)]
pub enum Side {
    Left,
    Right,
}

fn state(name: Name, lines: Vec<RawLine>) -> RawState
    ensures { source_state_of result ≡ state name (map source_transition_of lines.items) }
{
    RawState {
        line: 1,
        name,
        lines,
    }
}

// A state with one transition, which is always taken.
fn plain_state(
    alloc: Global,
    name: Name,
    target: Name,
    assigns: Vec<Assign<Name>>,
) -> Result<RawState, NoMemory>
    ensures { IfOk result
        (λ s. source_state_of s ≡ state name (transition None target (map named_assignment assigns.items) ∷ [])) }
{
    let lines = one(alloc, transition(target, assigns))?;
    Ok(state(name, lines))
}

// An assignment of one variable to another.
fn copy(alloc: Global, to: u8, from: u8) -> Result<Vec<Assign<Name>>, NoMemory>
    requires to { is_name (to ∷ []) ≡ true }
    requires from { is_name (from ∷ []) ≡ true }
    ensures { IfOk result
        (λ out. map named_assignment out.items ≡ letter_assignment to (Variable (from ∷ [])) ∷ []) }
{
    one(alloc, assign(alloc, to, variable(alloc, from)?)?)
}

// The state with which a round begins.
fn entry(alloc: Global, k: u32) -> Result<RawState, NoMemory>
    ensures { IfOk result (λ s. source_state_of s ≡ entry_state k) }
{
    let name = entry_name(alloc, k)?;
    let target = head_name(alloc, k)?;
    plain_state(alloc, name, target, copy(alloc, b'i', b'a')?)
}

// The way from a round to the next.
fn next_round(alloc: Global, k: u32) -> Result<RawLine, NoMemory>
    requires { k < 300 }
    ensures { IfOk result (λ l. source_transition_of l ≡ transition None (entry_name (k + 1)) []) }
{
    Ok(transition(entry_name(alloc, k + 1)?, Vec::new(alloc)))
}

// Transitions, and behind them the way from a round to the next.
fn head_lines(alloc: Global, k: u32, lines: Vec<RawLine>) -> Result<Vec<RawLine>, NoMemory>
    requires { k < 300 }
    ensures { IfOk result
        (λ out. map source_transition_of out.items ≡ map source_transition_of lines.items
        ++ transition None (entry_name (k + 1)) [] ∷ []) }
{
    with_last(lines, next_round(alloc, k)?)
}

// The head of a round's loop, where a turn goes to `target`.
fn head(
    alloc: Global,
    k: u32,
    target: Name,
    assigns: Vec<Assign<Name>>,
) -> Result<RawState, NoMemory>
    requires { k < 300 }
    ensures { IfOk result (λ s. source_state_of s ≡ head k target (map named_assignment assigns.items)) }
{
    let lines = head_lines(alloc, k, one(alloc, turn(alloc, target, assigns)?)?)?;
    Ok(state(head_name(alloc, k)?, lines))
}

// The assignment with which a turn begins.
fn turn_start(alloc: Global, k: u32) -> Result<Vec<Assign<Name>>, NoMemory>
    ensures { IfOk result (λ out. map named_assignment out.items ≡ take_summand k ∷ []) }
{
    one(alloc, take_summand(alloc, k)?)
}

// The left machine's head: a turn begins.
fn left_head(alloc: Global, k: u32) -> Result<RawState, NoMemory>
    requires { k < 300 }
    ensures { IfOk result (λ s. source_state_of s ≡ head k (body_name k) (take_summand k ∷ [])) }
{
    let target = body_name(alloc, k)?;
    head(alloc, k, target, turn_start(alloc, k)?)
}

// `s = s + b + k`
fn add_summand(alloc: Global, k: u32) -> Result<Assign<Name>, NoMemory>
    ensures { IfOk result (λ a. named_assignment a ≡ add_to_sum (summand k)) }
{
    add_to_sum(alloc, summand(alloc, k)?)
}

// Assignments, and behind them `i = i - 1`.
fn with_count_down(alloc: Global, assigns: Vec<Assign<Name>>) -> Result<Vec<Assign<Name>>, NoMemory>
    ensures { IfOk result
        (λ out. map named_assignment out.items ≡ map named_assignment assigns.items ++ count_down ∷ []) }
{
    with_last(assigns, count_down(alloc)?)
}

// The assignments of a whole turn.
fn whole_turn(alloc: Global, k: u32) -> Result<Vec<Assign<Name>>, NoMemory>
    ensures { IfOk result
        (λ out. map named_assignment out.items ≡ take_summand k ∷ add_to_sum (summand k) ∷ count_down ∷ []) }
{
    let start = turn_start(alloc, k)?;
    let sums = with_last(start, add_summand(alloc, k)?)?;
    with_count_down(alloc, sums)
}

// The right machine's head: a whole turn.
fn right_head(alloc: Global, k: u32) -> Result<RawState, NoMemory>
    requires { k < 300 }
    ensures { IfOk result
        (λ s. source_state_of s ≡ head k (head_name k) (take_summand k ∷ add_to_sum (summand k) ∷ count_down ∷ [])) }
{
    let target = head_name(alloc, k)?;
    head(alloc, k, target, whole_turn(alloc, k)?)
}

// The assignments that end a turn.
fn rest_of_turn(alloc: Global) -> Result<Vec<Assign<Name>>, NoMemory>
    ensures { IfOk result
        (λ out. map named_assignment out.items ≡ add_to_sum (Variable (codes "t")) ∷ count_down ∷ []) }
{
    let sum = one(alloc, add_to_sum(alloc, variable(alloc, b't')?)?)?;
    with_count_down(alloc, sum)
}

// The body of the left machine's loop: the rest of a turn.
fn body(alloc: Global, k: u32) -> Result<RawState, NoMemory>
    ensures { IfOk result (λ s. source_state_of s ≡ body_state k) }
{
    let name = body_name(alloc, k)?;
    let target = head_name(alloc, k)?;
    plain_state(alloc, name, target, rest_of_turn(alloc)?)
}

// The state that returns.
fn last_state(alloc: Global, n: u32) -> Result<RawState, NoMemory>
    ensures { IfOk result (λ s. source_state_of s ≡ last_state n) }
{
    let name = entry_name(alloc, n)?;
    let target = entry_name(alloc, 0)?;
    plain_state(alloc, name, target, copy(alloc, b'y', b's')?)
}

// The left machine's states of a round.
fn left_round(alloc: Global, k: u32) -> Result<Vec<RawState>, NoMemory>
    requires { k < 300 }
    ensures { IfOk result (λ out. map source_state_of out.items ≡ left_round k) }
{
    let entry = one(alloc, entry(alloc, k)?)?;
    let states = with_last(entry, left_head(alloc, k)?)?;
    with_last(states, body(alloc, k)?)
}

// The right machine's states of a round.
fn right_round(alloc: Global, k: u32) -> Result<Vec<RawState>, NoMemory>
    requires { k < 300 }
    ensures { IfOk result (λ out. map source_state_of out.items ≡ right_round k) }
{
    let entry = one(alloc, entry(alloc, k)?)?;
    with_last(entry, right_head(alloc, k)?)
}

// The states of a round.
fn round(alloc: Global, side: Side, k: u32) -> Result<Vec<RawState>, NoMemory>
    requires { k < 300 }
    ensures { IfOk result (λ out. map source_state_of out.items ≡ round_of side k) }
{
    match side {
        Side::Left => left_round(alloc, k),
        Side::Right => right_round(alloc, k),
    }
}

// The states of all rounds, and the last one.
pub fn states(alloc: Global, side: Side, n: u32) -> Result<Vec<RawState>, NoMemory>
    requires { n ≤ 300 }
    ensures { IfOk result (λ out. map source_state_of out.items ≡ generated_states (round_of side) n) }
{
    let mut out = Vec::new(alloc);
    for k in 0..n {
        let mut round = round(alloc, side, k)?;
        out.append(&mut round)?;
    }
    with_last(out, last_state(alloc, n)?)
}
