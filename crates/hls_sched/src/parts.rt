//! The parts of a machine with its blocks in rows.

ghost use Rattle.std.specs.Prelude.{◌≡◌, ℕ, ◌<◌, ◌++◌, map, option_map, length, IfOk, IfSome};
ghost use Rattle.std.specs.List.{All};
ghost use Rattle.std.specs.Result.{OnOk};
ghost use Rattle.fs_model.specs.Source.{Source};
ghost use Rattle.fs_model.specs.View.{named_assignment, source_transition_of, source_state_of, source_of};
ghost use Rattle.hls_block_filling.specs.SourceRows.{first_assignments, first_row_effect};
ghost use Rattle.hls_block_filling.specs.Sources.{state_with_row, states_by, source_by_rows};
ghost use Rattle.hls_sched.specs.RowMoves.{joined_items, done_by, move_of, transition_with_row, IsMoveAmong};

use crate::blocks::is_in_block;
use crate::copies::{add_assignments, copied_declarations, copied_state};
use crate::moves::Move;
use fs_ast::machine::Machine;
use fs_model::memory::push_made;
use fs_model::name::{Name, NoMemory};
use fs_model::parts::{Assign, Parts, RawLine, RawState, StateId};
use std::alloc::Global;

// The move of a state, where there is one.
fn move_of_state(moves: &[Move], state: StateId) -> Option<&Move>
    ensures found { (p : Source) → option_map (λ x. done_by p x.now) result
        ≡ first_row_effect (map (move_of p) moves.now) state.0 }
    ensures among { (count : ℕ) → All (IsMoveAmong count) moves.now → IfSome result (λ x. IsMoveAmong count x.now) }
{
    for one in moves {
        if one.state == state {
            return Some(one);
        }
    }
    None
}

// Adds copies of the assignments of a state's first transition.
fn add_item(alloc: Global, state: &RawState, out: &mut Vec<Assign<Name>>) -> Result<(), NoMemory>
    ensures { OnOk result
        (map named_assignment out.new.items ≡ map named_assignment out.old.items
        ++ first_assignments (source_state_of state.now).transitions) }
{
    if let Some(line) = state.lines.first() {
        add_assignments(alloc, &line.assigns, out)?;
    }
    Ok(())
}

// Copies of the assignments of items, one after another.
fn joined_items(
    alloc: Global,
    parts: &Parts,
    items: &[StateId],
) -> Result<Vec<Assign<Name>>, NoMemory>
    requires { All (λ q. q.0 < length parts.now.states.items) items.now }
    ensures { IfOk result (λ out. map named_assignment out.items ≡ joined_items (source_of parts.now) items.now) }
{
    let mut out = Vec::new(alloc);
    for state in items {
        add_item(alloc, &parts.states[state.0 as usize], &mut out)?;
    }
    Ok(out)
}

// A move as a transition of a block.
fn transition_of(alloc: Global, parts: &Parts, line: u32, by: &Move) -> Result<RawLine, NoMemory>
    requires { IsMoveAmong (length parts.now.states.items) by.now }
    ensures { IfOk result
        (λ l. source_transition_of l ≡ transition_with_row (source_of parts.now) line (done_by (source_of parts.now) by.now)) }
{
    let target = parts.states[by.target.0 as usize].name.try_clone(alloc)?;
    let assigns = joined_items(alloc, parts, &by.items)?;
    Ok(RawLine {
        line,
        guard: None,
        target,
        assigns,
    })
}

// A state with a move for its one transition.
fn moved_state(
    alloc: Global,
    parts: &Parts,
    state: &RawState,
    by: &Move,
) -> Result<RawState, NoMemory>
    requires { IsMoveAmong (length parts.now.states.items) by.now }
    ensures { IfOk result
        (λ out. source_state_of out ≡ state_with_row (source_of parts.now) (source_state_of state.now)
        (done_by (source_of parts.now) by.now)) }
{
    let mut lines = Vec::new(alloc);
    push_made(&mut lines, transition_of(alloc, parts, state.line, by))?;
    Ok(RawState {
        line: state.line,
        name: state.name.try_clone(alloc)?,
        lines,
    })
}

// Adds a state as it will be: with its row where it has one, not at all where it has none and stands in a block,
// and else as it is.
fn add_state(
    alloc: Global,
    parts: &Parts,
    m: &Machine,
    moves: &[Move],
    state: StateId,
    out: &mut Vec<RawState>,
) -> Result<(), NoMemory>
    requires moves { All (IsMoveAmong (length parts.now.states.items)) moves.now }
    requires machine { length m.now.states ≡ length parts.now.states.items }
    requires state { state.0 < length parts.now.states.items }
    ensures { OnOk result
        (map source_state_of out.new.items ≡ map source_state_of out.old.items
        ++ states_by (source_of parts.now) m.now (first_row_effect (map (move_of (source_of parts.now)) moves.now)) state.0) }
{
    let old = &parts.states[state.0 as usize];
    match move_of_state(moves, state) {
        Some(by) => push_made(out, moved_state(alloc, parts, old, by)),
        None => if is_in_block(m, state) {
            Ok(())
        } else {
            push_made(out, copied_state(alloc, old))
        },
    }
}

// The states with moves: one for each move, and none for a state of a block that has no move.
fn moved_states(
    alloc: Global,
    parts: &Parts,
    m: &Machine,
    moves: &[Move],
) -> Result<Vec<RawState>, NoMemory>
    requires moves { All (IsMoveAmong (length parts.now.states.items)) moves.now }
    requires machine { length m.now.states ≡ length parts.now.states.items }
    ensures { IfOk result
        (λ out. map source_state_of out.items
        ≡ (source_by_rows (source_of parts.now) m.now
        (first_row_effect (map (move_of (source_of parts.now)) moves.now))).states) }
{
    let mut out = Vec::new(alloc);
    for q in 0..m.state_count() {
        add_state(alloc, parts, m, moves, StateId(q), &mut out)?;
    }
    Ok(out)
}

/// The parts with moves: a state for each move, and none for a state of a block that has no move. Other states and the
/// declarations stay.
pub fn moved_parts(
    alloc: Global,
    parts: &Parts,
    m: &Machine,
    moves: &[Move],
) -> Result<Parts, NoMemory>
    requires moves { All (IsMoveAmong (length parts.now.states.items)) moves.now }
    requires machine { length m.now.states ≡ length parts.now.states.items }
    ensures { IfOk result
        (λ out. source_of out ≡ source_by_rows (source_of parts.now) m.now
        (first_row_effect (map (move_of (source_of parts.now)) moves.now))) }
{
    let states = moved_states(alloc, parts, m, moves)?;
    let decls = copied_declarations(alloc, &parts.decls)?;
    Ok(Parts {
        decls,
        reset_line: parts.reset_line,
        reset: parts.reset.try_clone(alloc)?,
        states,
    })
}
