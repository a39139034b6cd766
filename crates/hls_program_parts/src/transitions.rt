//! Single states and their transitions.

ghost use Rattle.std.specs.Prelude.{◌≡◌, ◌∷◌, [], map, IfOk, string_bytes};
ghost use Rattle.fs_model.specs.View.{named_assignment, named_guard, source_state_of, source_transition_of};
ghost use Rattle.hls_program_parts.specs.Compiled.{always, named_state, state_name, where_holds};

use fs_model::assignment_copies::copied_guard;
use fs_model::name::{Name, NoMemory};
use fs_model::parts::{Assign, Guard, RawLine, RawState};
use std::alloc::{AllocError, Global};

fn state_text(alloc: Global, number: u32) -> Result<String, AllocError>
    ensures { IfOk result (λ text. string_bytes text ≡ state_name number) }
{
    format!(in alloc; "k{number}")
}

/// The name of the state of a number.
#[tactic(auto, using(crate::proofs::Names::is_number_name))]
pub fn state_name(alloc: Global, number: u32) -> Result<Name, NoMemory>
    ensures { IfOk result (λ n. n ≡ state_name number) }
{
    let text = state_text(alloc, number)?;
    match Name::of(alloc, text.as_bytes())? {
        Some(name) => Ok(name),
        None => unreachable!(),
    }
}

fn always(line: u32, target: Name, assigns: Vec<Assign<Name>>) -> RawLine
    ensures { source_transition_of result ≡ record { line = line; content = always target (map named_assignment assigns.items) } }
{
    RawLine {
        line,
        guard: None,
        target,
        assigns,
    }
}

fn where_holds(alloc: Global, line: u32, guard: &Guard, target: Name) -> Result<RawLine, NoMemory>
    ensures { IfOk result
        (λ l. source_transition_of l ≡ record { line = line; content = where_holds (named_guard guard.now) target }) }
{
    let guard = copied_guard(alloc, guard)?;
    Ok(RawLine {
        line,
        guard: Some(guard),
        target,
        assigns: Vec::new(alloc),
    })
}

/// A list of one value.
pub fn one<T: Drop>(alloc: Global, item: T) -> Result<Vec<T>, NoMemory>
    ensures { IfOk result (λ out. out.items ≡ item ∷ []) }
{
    let mut out = Vec::new(alloc);
    out.push(item)?;
    Ok(out)
}

/// The state that assigns and goes to the state `next`.
pub fn step(
    alloc: Global,
    number: u32,
    line: u32,
    next: u32,
    assigns: Vec<Assign<Name>>,
) -> Result<RawState, NoMemory>
    ensures { IfOk result
        (λ s. source_state_of s ≡ named_state number (line, always (state_name next) (map named_assignment assigns.items) ∷ [])) }
{
    let target = state_name(alloc, next)?;
    let lines = one(alloc, always(line, target, assigns))?;
    let name = state_name(alloc, number)?;
    Ok(RawState { line, name, lines })
}

/// The state that goes to the state `to` where a guard holds, and to the state `otherwise` where it doesn't.
pub fn choice(
    alloc: Global,
    number: u32,
    line: u32,
    guard: &Guard,
    to: u32,
    otherwise: u32,
) -> Result<RawState, NoMemory>
    ensures { IfOk result
        (λ s. source_state_of s ≡ named_state number
        (line, where_holds (named_guard guard.now) (state_name to) ∷ always (state_name otherwise) [] ∷ [])) }
{
    let name = state_name(alloc, number)?;
    let lines = choice_lines(alloc, line, guard, to, otherwise)?;
    Ok(RawState { line, name, lines })
}

fn choice_lines(
    alloc: Global,
    line: u32,
    guard: &Guard,
    to: u32,
    otherwise: u32,
) -> Result<Vec<RawLine>, NoMemory>
    ensures { IfOk result
        (λ ls. map source_transition_of ls.items ≡ record {
          line = line;
          content = where_holds (named_guard guard.now) (state_name to);
        } ∷ record { line = line; content = always (state_name otherwise) [] } ∷ []) }
{
    let target = state_name(alloc, to)?;
    let mut lines = one(alloc, where_holds(alloc, line, guard, target)?)?;
    let other = state_name(alloc, otherwise)?;
    lines.push(always(line, other, Vec::new(alloc)))?;
    Ok(lines)
}
