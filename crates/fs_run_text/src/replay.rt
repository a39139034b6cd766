//! The text of a replay: what two runs answered, side by side.

ghost use Rattle.std.specs.Prelude.{◌≡◌, ◌++◌, ◌∷◌, [], None, map, option_map, IfOk};
ghost use Rattle.std.specs.Bool.{Decides};
ghost use Rattle.std.specs.Result.{OnOk};
ghost use Rattle.fs_pair.specs.Interfaces.{interface_fault};
ghost use Rattle.fs_stores.specs.Values.{content_of, entry_number, numbers_of};
ghost use Rattle.fs_runs.specs.Outcomes.{output_names, told_by, HoldsEach};
ghost use Rattle.fs_run_text.specs.ItemTexts.{AgreeOnNames, SameOutputs};
ghost use Rattle.fs_run_text.specs.EndTexts.{IsReplayText, replay_text, side_line, after_space, verdict_line};

use crate::items::{items, output_value};
use crate::memory::NoMemory;
use crate::shown::{append, join_with_commas};
use fs_ast::machine::Machine;
use fs_model::parts::VarInfo;
use fs_runs::run::Ended;
use fs_stores::numbers::Numbers;
use fs_stores::values::{Entries, Value};
use std::alloc::Global;

/// What two runs that ended answered: whether the outputs are the same, and the text that says so.
#[derive(Drop)]
pub struct Replay {
    pub same: bool,
    pub text: Vec<u8>,
}

/// The text of two runs that ended, of machines with the same inputs and outputs: `same` or `differ`,
/// and the outputs of both sides, in the order of the left machine's outputs. The one refusal is out of memory.
pub fn replay_text(
    alloc: Global,
    left: &Machine,
    left_end: &Ended,
    right: &Machine,
    right_end: &Ended,
) -> Result<Replay, NoMemory>
    requires interfaces { interface_fault left.now right.now ≡ None }
    requires left_outputs { HoldsEach (told_by left.now left_end.now.outputs.items) (output_names left.now.variables) }
    requires right_outputs { HoldsEach (told_by right.now right_end.now.outputs.items) (output_names right.now.variables) }
    ensures same { IfOk result
        (λ r. Decides r.same
        (SameOutputs (told_by left.now left_end.now.outputs.items) (told_by right.now right_end.now.outputs.items))) }
    ensures text { IfOk result
        (λ r. IsReplayText (output_names left.now.variables) (told_by left.now left_end.now.outputs.items)
        (told_by right.now right_end.now.outputs.items) r.text.items) }
{
    let same = same_outputs(alloc, left, left_end, right, right_end)?;
    let lefts = items(alloc, left, left, left_end.outputs.as_slice())?;
    let rights = items(alloc, left, right, right_end.outputs.as_slice())?;
    let text = side_by_side(alloc, same, lefts.as_slice(), rights.as_slice())?;
    Ok(Replay { same, text })
}

/// Whether two runs that ended, of machines with the same inputs and outputs, have the same outputs.
/// Each is looked up by its name, up to the first that differs. The one refusal is out of memory.
pub fn same_outputs(
    alloc: Global,
    left: &Machine,
    left_end: &Ended,
    right: &Machine,
    right_end: &Ended,
) -> Result<bool, NoMemory>
    requires { interface_fault left.now right.now ≡ None }
    ensures { IfOk result
        (λ r. Decides r
        (SameOutputs (told_by left.now left_end.now.outputs.items) (told_by right.now right_end.now.outputs.items))) }
{
    let lefts = left_end.outputs.as_slice();
    let rights = right_end.outputs.as_slice();
    outputs_agree(alloc, left, lefts, right, rights)
}

// Whether the left machine's outputs hold the same on both sides.
fn outputs_agree(
    alloc: Global,
    left: &Machine,
    lefts: &[Value],
    right: &Machine,
    rights: &[Value],
) -> Result<bool, NoMemory>
    ensures { IfOk result
        (λ r. Decides r
        (AgreeOnNames (told_by left.now lefts.now) (told_by right.now rights.now) (output_names left.now.variables))) }
{
    for variable in left.vars() {
        if !same_output(alloc, variable, left, lefts, right, rights)? {
            return Ok(false);
        }
    }
    Ok(true)
}

// Whether a variable is no output, or its name holds the same on both sides.
fn same_output(
    alloc: Global,
    variable: &VarInfo,
    left: &Machine,
    lefts: &[Value],
    right: &Machine,
    rights: &[Value],
) -> Result<bool, NoMemory>
    ensures { IfOk result
        (λ r. Decides r
        (AgreeOnNames (told_by left.now lefts.now) (told_by right.now rights.now) (output_names (variable.now ∷ [])))) }
{
    if !variable.role.is_output() {
        return Ok(true);
    }
    let left_value = output_value(left, lefts, &variable.name);
    let right_value = output_value(right, rights, &variable.name);
    same_content(alloc, left_value, right_value)
}

// Whether two values hold the same, or neither is there.
fn same_content(
    alloc: Global,
    left: Option<&Value>,
    right: Option<&Value>,
) -> Result<bool, NoMemory>
    ensures { IfOk result
        (λ r. Decides r (option_map (λ v. content_of v.now) left.entry ≡ option_map (λ v. content_of v.now) right.entry)) }
{
    match (left, right) {
        (None, None) => Ok(true),
        (Some(left), Some(right)) => same_value(alloc, left, right),
        _ => Ok(false),
    }
}

fn same_value(alloc: Global, left: &Value, right: &Value) -> Result<bool, NoMemory>
    ensures { IfOk result (λ r. Decides r (content_of left.now ≡ content_of right.now)) }
{
    match (left, right) {
        (Value::Num(left), Value::Num(right)) => Ok(*left == *right),
        (Value::Arr(left), Value::Arr(right)) => same_entries(alloc, left, right),
        (Value::List(left), Value::List(right)) => Ok(same_numbers(left, right)),
        _ => Ok(false),
    }
}

// Whether two arrays hold the same number at each index.
fn same_entries(alloc: Global, left: &Entries, right: &Entries) -> Result<bool, NoMemory>
    ensures { IfOk result (λ r. Decides r (entry_number left.now ≡ entry_number right.now)) }
{
    let lefts = left.list(alloc)?;
    let rights = right.list(alloc)?;
    Ok(lefts.as_slice() == rights.as_slice())
}

fn same_numbers(left: &Numbers, right: &Numbers) -> bool
    ensures { Decides result (numbers_of left.now ≡ numbers_of right.now) }
{
    left.get() == right.get()
}

fn side_by_side(
    alloc: Global,
    same: bool,
    lefts: &[Vec<u8>],
    rights: &[Vec<u8>],
) -> Result<Vec<u8>, NoMemory>
    ensures { IfOk result (λ text. text.items ≡ replay_text same (map (λ i. i.items) lefts.now) (map (λ i. i.items) rights.now)) }
{
    let mut text = Vec::new(alloc);
    append(&mut text, verdict_line(same))?;
    append_side(alloc, &mut text, b"left:".as_slice(), lefts)?;
    append_side(alloc, &mut text, b"right:".as_slice(), rights)?;
    Ok(text)
}

// Appends the line of one side.
pub(crate) fn append_side(
    alloc: Global,
    out: &mut Vec<u8>,
    word: &[u8],
    items: &[Vec<u8>],
) -> Result<(), NoMemory>
    ensures { OnOk result (out.new.items ≡ out.old.items ++ side_line word.now (map (λ i. i.items) items.now)) }
{
    append(out, word)?;
    append(out, after_space(alloc, items)?.as_slice())?;
    append(out, b"\n".as_slice())?;
    Ok(())
}

fn verdict_line(same: bool) -> &'static [u8]
    ensures { result.now ≡ verdict_line same }
{
    if same {
        b"same\n".as_slice()
    } else {
        b"differ\n".as_slice()
    }
}

// Items joined, after one space where there are any.
fn after_space(alloc: Global, items: &[Vec<u8>]) -> Result<Vec<u8>, NoMemory>
    ensures { IfOk result (λ text. text.items ≡ after_space (map (λ i. i.items) items.now)) }
{
    let mut text = Vec::new(alloc);
    if !items.is_empty() {
        append(&mut text, b" ".as_slice())?;
        append(&mut text, join_with_commas(alloc, items)?.as_slice())?;
    }
    Ok(text)
}
