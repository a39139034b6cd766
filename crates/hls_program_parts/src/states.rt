//! The states of statements.

ghost use Rattle.std.specs.Prelude.{◌≡◌, ◌<◌, ◌+◌, ◌^◌, ◌++◌, ◌∷◌, [], map, IfOk, OnOk};
ghost use Rattle.fs_model.specs.Source.{SourceState};
ghost use Rattle.fs_model.specs.View.{named_assignment, source_state_of};
ghost use Rattle.hls_program_parts.specs.Compiled.{always, count, named_state, numbered_states, state_name, states_of};
ghost use Rattle.hls_program_parts.specs.View.{block_of_statement, block_of};

use crate::counts::{count, first, size};
use crate::program::Stmt;
use crate::transitions::{choice, one, step};
use fs_model::assignment_copies::copied_assignment;
use fs_model::name::{Name, NoMemory};
use fs_model::parts::{Assign, RawState};
use std::alloc::Global;

// Adds a state, where it was made.
fn add_made(out: &mut Vec<RawState>, made: Result<RawState, NoMemory>) -> Result<(), NoMemory>
    ensures { (state : SourceState) → IfOk made (λ s. source_state_of s ≡ state)
        → OnOk result (map source_state_of out.new.items ≡ map source_state_of out.old.items ++ state ∷ []) }
{
    out.push(made?)?;
    Ok(())
}

// The state of an assignment, which goes to the state `next`.
fn assignment_state(
    alloc: Global,
    number: u32,
    line: u32,
    next: u32,
    assign: &Assign<Name>,
) -> Result<RawState, NoMemory>
    ensures { IfOk result
        (λ s. source_state_of s ≡ named_state number (line, always (state_name next) (named_assignment assign.now ∷ []) ∷ [])) }
{
    let assigns = one(alloc, copied_assignment(alloc, assign)?)?;
    step(alloc, number, line, next, assigns)
}

/// Adds the states of statements, of which `number` is the first number, and `follow` is what follows them.
#[cycle(states)]
#[tactic(auto, using(crate::proofs::Joined::count_joined, crate::proofs::Joined::block_numbered, crate::proofs::Joined::ended))]
pub fn add_block(
    alloc: Global,
    statements: &[Stmt],
    number: u32,
    follow: u32,
    out: &mut Vec<RawState>,
) -> Result<(), NoMemory>
    requires fits { number + count (block_of statements.now) < 2 ^ 32 }
    ensures { OnOk result
        (map source_state_of out.new.items ≡ map source_state_of out.old.items
        ++ numbered_states number (states_of state_name (block_of statements.now) number follow)) }
{
    let mut number = number;
    let mut rest = statements;
    'each: while let Some((one, behind)) = rest.split_first() {
        let after = number + size(one);
        let next = first(behind, after, follow);
        add_statement(alloc, one, number, next, out)?;
        number = after;
        rest = behind;
    }
    Ok(())
}

// Adds the states of a statement and of those in it.
#[cycle(states)]
#[tactic(auto, using(crate::proofs::Joined::joined_blocks))]
fn add_statement(
    alloc: Global,
    statement: &Stmt,
    number: u32,
    next: u32,
    out: &mut Vec<RawState>,
) -> Result<(), NoMemory>
    requires fits { number + count (block_of_statement statement.now) < 2 ^ 32 }
    ensures { OnOk result
        (map source_state_of out.new.items ≡ map source_state_of out.old.items
        ++ numbered_states number (states_of state_name (block_of_statement statement.now) number next)) }
{
    match statement {
        Stmt::Do { line, assign } => add_made(
            out,
            assignment_state(alloc, number, *line, next, assign),
        ),
        Stmt::If {
            line,
            guard,
            yes,
            no,
        } => {
            let other = number + 1 + count(yes);
            let to = first(yes, number + 1, next);
            let otherwise = first(no, other, next);
            add_made(out, choice(alloc, number, *line, guard, to, otherwise))?;
            add_block(alloc, yes, number + 1, next, out)?;
            add_block(alloc, no, other, next, out)
        }
        Stmt::While { line, guard, body } => {
            let to = first(body, number + 1, number);
            add_made(out, choice(alloc, number, *line, guard, to, next))?;
            add_block(alloc, body, number + 1, number, out)
        }
    }
}
