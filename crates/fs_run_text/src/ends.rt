//! The texts of a run: how it ended, or why it has no end.

ghost use Rattle.std.specs.Prelude.{◌≡◌, ◌++◌, map, IfOk, string_bytes, codes, decimal};
ghost use Rattle.std.specs.Result.{OnOk};
ghost use Rattle.std.specs.List.{flat_map};
ghost use Rattle.fs_runs.specs.Outcomes.{output_names, told_by, HoldsEach};
ghost use Rattle.fs_run_text.specs.EndTexts.{IsEndText, IsStopText, side_word, reply_line};

use crate::items::items;
use crate::memory::NoMemory;
use crate::shown::append;
use fs_ast::machine::Machine;
use fs_runs::run::{Ended, RunStop};
use std::alloc::{AllocError, Global};

/// Which run a stop is of: the only one, or one of two.
#[derive(Clone, Copy)]
pub enum Side {
    Only,
    Left,
    Right,
}

/// The text of a run that ended: `ended: N steps`, and a line `NAME = VALUE` for each output, in order
/// of declaration.
///
/// A number is in decimal, an array as `{0: 1, 5: -9}`: its entries that are not 0, in increasing order
/// of index, and a list as `[1, 2, -3]`. The one refusal is out of memory.
pub fn end_text(alloc: Global, m: &Machine, ended: &Ended) -> Result<Vec<u8>, NoMemory>
    requires outputs { HoldsEach (told_by m.now ended.now.outputs.items) (output_names m.now.variables) }
    ensures text { IfOk result
        (λ text. IsEndText (output_names m.now.variables) (told_by m.now ended.now.outputs.items) ended.now.steps text.items) }
{
    let items = items(alloc, m, m, ended.outputs.as_slice())?;
    let mut text = first_line(alloc, ended.steps)?;
    append_lines(&mut text, items.as_slice())?;
    Ok(text)
}

fn first_line(alloc: Global, steps: u64) -> Result<Vec<u8>, NoMemory>
    ensures { IfOk result (λ text. text.items ≡ codes "ended: " ++ (decimal steps ++ codes " steps\n")) }
{
    match steps_line(alloc, steps) {
        Ok(line) => Ok(line.into_bytes()),
        Err(_) => Err(NoMemory),
    }
}

fn steps_line(alloc: Global, steps: u64) -> Result<String, AllocError>
    ensures { IfOk result (λ text. string_bytes text ≡ codes "ended: " ++ (decimal steps ++ codes " steps\n")) }
{
    format!(in alloc; "ended: {steps} steps\n")
}

// Appends lines.
pub(crate) fn append_lines(out: &mut Vec<u8>, items: &[Vec<u8>]) -> Result<(), NoMemory>
    ensures { OnOk result (out.new.items ≡ out.old.items ++ flat_map reply_line (map (λ i. i.items) items.now)) }
{
    for item in items {
        append(out, item.as_slice())?;
        append(out, b"\n".as_slice())?;
    }
    Ok(())
}

/// The text of a run that has no end, after `left ` or `right ` where it is one of two. Out of memory
/// has no text, and stays out of memory.
pub fn stop_text(alloc: Global, side: Side, stop: RunStop) -> Result<Vec<u8>, NoMemory>
    ensures text { IfOk result (λ text. IsStopText side stop text.items) }
{
    let word = side_word(side);
    let line = match stop {
        RunStop::StepsOver { limit } => steps_over(alloc, word, limit),
        RunStop::PastWide { step } => past_wide(alloc, word, step),
        RunStop::NoMemory => return Err(NoMemory),
    };
    match line {
        Ok(line) => Ok(line.into_bytes()),
        Err(_) => Err(NoMemory),
    }
}

fn side_word(side: Side) -> &'static str
    ensures { result.now ≡ side_word side }
{
    match side {
        Side::Only => "",
        Side::Left => "left ",
        Side::Right => "right ",
    }
}

fn steps_over(alloc: Global, word: &str, limit: u64) -> Result<String, AllocError>
    ensures { IfOk result
        (λ text. string_bytes text ≡ codes "undecided: "
        ++ (word.now ++ (codes "no return within " ++ (decimal limit ++ codes " steps\n")))) }
{
    format!(in alloc; "undecided: {word}no return within {limit} steps\n")
}

fn past_wide(alloc: Global, word: &str, step: u64) -> Result<String, AllocError>
    ensures { IfOk result
        (λ text. string_bytes text ≡ codes "undecided: "
        ++ (word.now ++ (codes "number past 128 bits at step " ++ (decimal step ++ codes "\n")))) }
{
    format!(in alloc; "undecided: {word}number past 128 bits at step {step}\n")
}
