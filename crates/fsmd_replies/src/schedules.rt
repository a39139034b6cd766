//! The lines of what is told of schedules.

ghost use Rattle.std.specs.Prelude.{◌≡◌, ◌++◌, codes, decimal, IfOk, string_bytes};
ghost use Rattle.std.specs.Result.{OnOk};
ghost use Rattle.fsmd_replies.specs.ScheduleTexts.{report_line};

use std::alloc::{AllocError, Global};

// What is told of a basic block behind the name of its first state.
fn lengths_text(alloc: Global, before: u32, after: u32, chain: u32) -> Result<String, AllocError>
    ensures { IfOk result
        (λ text. string_bytes text ≡ codes ": "
        ++ (decimal before ++ (codes " to " ++ (decimal after ++ (codes ", chain " ++ (decimal chain ++ codes "\n")))))) }
{
    format!(in alloc; ": {before} to {after}, chain {chain}\n")
}

/// Adds what is told of a basic block: the name of its first state, its length before and now, and its chain. The one refusal
/// is out of memory.
pub fn write_report_line(
    alloc: Global,
    first: &[u8],
    before: u32,
    after: u32,
    chain: u32,
    out: &mut Vec<u8>,
) -> Result<(), AllocError>
    ensures { OnOk result (out.new.items ≡ out.old.items ++ report_line first.now before after chain) }
{
    out.extend_from_slice(b"# ")?;
    out.extend_from_slice(first)?;
    out.extend_from_slice(lengths_text(alloc, before, after, chain)?.as_bytes())
}
