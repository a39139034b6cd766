//! Puts how the program is used.

ghost use Rattle.std.specs.Prelude.{◌≡◌, ◌≤◌, IfOk};
ghost use Rattle.std.specs.Result.{OnErr};
ghost use Rattle.fsmd_replies.specs.declared.answer.Status.TheVariants.{Usage};
ghost use Rattle.fsmd_tool.specs.SinkReplies.{IsPut, put_between};
ghost use Rattle.show_tool.specs.ViewCalls.{usage_text};

use fs_base::outside::Sink;
use fsmd_replies::answer::Status;
use fsmd_tool::put::put_whole;
use std::alloc::AllocError;

const USAGE: &str =
    "usage: fsmd_show machine A | pair A B | why A B | certificate A B C | inputs A B | trace A I [--steps N]\n";

/// Puts how the program is used, and gives `Usage`, or `Fault` where the sink failed.
///
/// The error is out of memory: the line is longer than the sink has room; then nothing was put.
pub fn put_usage<S: Sink>(out: &mut S) -> Result<Status, AllocError>
    ensures ok { IfOk result (λ status. IsPut usage_text Usage (put_between status (S.told out.old) (S.told out.new))) }
    ensures err { OnErr result ((S.told out.new).got ≡ (S.told out.old).got) }
    ensures sink_counts { (S.told out.old).faults ≤ (S.told out.new).faults }
{
    put_whole(USAGE.as_bytes(), Status::Usage, out)
}
