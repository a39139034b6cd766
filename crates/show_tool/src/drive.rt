//! The top call: from words to a status.

ghost use Rattle.std.specs.Prelude.{◌≡◌, ◌≤◌, IfOk, Some, None};
ghost use Rattle.std.specs.Result.{OnErr};
ghost use Rattle.fs_base.specs.Outside.{NoneFell};
ghost use Rattle.fsmd_tool.specs.SinkReplies.{put_between};
ghost use Rattle.fsmd_tool.specs.CertificateStores.{file_change, IsUnchangedStore};
ghost use Rattle.fsmd_replies.specs.AskedFiles.{cert_of};
ghost use Rattle.show_words.specs.ViewWords.{IsViewWithinLimits, shown_view};
ghost use Rattle.show_tool.specs.ViewCalls.{shown_by_words, ViewOutcome, IsShown, PutsOf};

use crate::put::put_usage;
use crate::views::answer_view;
use fs_base::outside::{Files, Sink};
use fsmd_answers::refused::answer_of;
use fsmd_replies::answer::Status;
use fsmd_tool::put::put_answer;
use fsmd_words::asking::AskError;
use show_words::asking::Show;
use show_words::words::show;
use std::alloc::{AllocError, Global};

// Puts the reply to what is asked.
fn put_reply_to<F: Files, S: Sink>(
    alloc: Global,
    show: &Show,
    files: &mut F,
    out: &mut S,
) -> Result<Status, AllocError>
    requires certificate { cert_of (Some (shown_view show.now).asked) ≡ None }
    requires limits { IsViewWithinLimits (shown_view show.now).view }
    ensures shown { IfOk result (λ status. IsShown (shown_view show.now) (F.told files.old) (F.told files.new)
        (put_between status (S.told out.old) (S.told out.new))) }
    ensures err { OnErr result ((S.told out.new).got ≡ (S.told out.old).got) }
    ensures kept { IsUnchangedStore (file_change (F.told files.old) (F.told files.new)) }
    ensures counts { NoneFell (F.told files.old).faults (F.told files.new).faults }
    ensures sink_counts { (S.told out.old).faults ≤ (S.told out.new).faults }
{
    let answer = answer_of(answer_view(alloc, show, files))?;
    put_answer(alloc, &answer, &show.ask, files, out)
}

// Puts the reply to words.
fn put_reply<F: Files, S: Sink>(
    alloc: Global,
    words: &[String],
    files: &mut F,
    out: &mut S,
) -> Result<Status, AllocError>
    ensures shown { IfOk result (λ status. PutsOf (shown_by_words words.now) (F.told files.old) (F.told files.new)
        (put_between status (S.told out.old) (S.told out.new))) }
    ensures err { OnErr result ((S.told out.new).got ≡ (S.told out.old).got) }
    ensures kept { IsUnchangedStore (file_change (F.told files.old) (F.told files.new)) }
    ensures counts { NoneFell (F.told files.old).faults (F.told files.new).faults }
    ensures sink_counts { (S.told out.old).faults ≤ (S.told out.new).faults }
{
    match show(alloc, words) {
        Ok(show) => put_reply_to(alloc, &show, files, out),
        Err(AskError::Usage) => put_usage(out),
        Err(AskError::NoMemory) => Err(AllocError),
    }
}

/// Shows what the words ask to see, and tells how it ended.
///
/// The words are those after the program's name: a view, the names of its files, and its option. Files are refused as `fsmd`
/// refuses them, by the same replies and with the same statuses, and no file is changed. `NoMemory` comes where memory is
/// refused, also where the sink has no room for the reply; then nothing was put.
pub fn drive_show<F: Files, S: Sink>(
    alloc: Global,
    words: &[String],
    files: &mut F,
    out: &mut S,
) -> Status
    ensures outcome { ViewOutcome (shown_by_words words.now) (F.told files.old) (F.told files.new)
        (put_between result (S.told out.old) (S.told out.new)) }
    ensures kept { IsUnchangedStore (file_change (F.told files.old) (F.told files.new)) }
    ensures counts { NoneFell (F.told files.old).faults (F.told files.new).faults }
    ensures sink_counts { (S.told out.old).faults ≤ (S.told out.new).faults }
{
    match put_reply(alloc, words, files, out) {
        Ok(status) => status,
        Err(_) => Status::NoMemory,
    }
}
