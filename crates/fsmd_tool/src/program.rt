//! The program: from words to a status, and from the environment to the words.

ghost use Rattle.std.specs.Prelude.{◌≡◌, ◌⊎◌, IfOk, drop};
ghost use Rattle.std.specs.Result.{IfErr};
ghost use Rattle.fsmd_replies.specs.declared.answer.Status.TheVariants.{Fault, NoMemory};
ghost use Rattle.fsmd_tool.specs.Asking.{asked_by_words};
ghost use Rattle.fsmd_tool.specs.Calls.{call};
ghost use Rattle.fsmd_tool.specs.SinkReplies.{put_between, end_status};
ghost use Rattle.fsmd_tool.specs.Running.{IsDriven, EndsSo};

use crate::answer::answer;
use crate::put::{put_reply, put_usage};
use fs_base::disk::DiskFiles;
use fs_base::outside::{Files, Sink};
use fs_base::writers::WriterSink;
use fsmd_replies::answer::Status;
use fsmd_words::asking::AskError;
use fsmd_words::words::ask;
use std::alloc::{AllocError, Global};
use std::rt::Runtime;
use std::{env, io};

// The status that was put, or that there was no memory.
fn end_status(put: Result<Status, AllocError>) -> Status
    ensures { result ≡ end_status put }
{
    match put {
        Ok(status) => status,
        Err(_) => Status::NoMemory,
    }
}

/// Does what the words ask, puts the reply, and tells how it ended.
///
/// The words are those after the program's name: a command, the names of its files, and its options. No file is changed but
/// the one that `--cert` names, and that only where `check` answers `equivalent`: then it holds the certificate, before the reply
/// is put. `NoMemory` comes where memory is refused, also where the sink has no room for the reply; then nothing was put, and
/// nothing stored but where that failed.
/// `Fault` comes where a file could not be read, or the certificate not be stored, which the reply says, or where the
/// sink failed, which then got a prefix of the reply.
pub fn drive<F: Files, S: Sink>(
    alloc: Global,
    words: &[String],
    files: &mut F,
    out: &mut S,
) -> Status
    ensures { IsDriven (call (asked_by_words words.now) (F.told files.old) (F.told files.new))
        (put_between result (S.told out.old) (S.told out.new)) }
{
    match ask(alloc, words) {
        Ok(ask) => end_status(put_reply(alloc, answer(alloc, &ask, files), &ask, files, out)),
        Err(AskError::Usage) => end_status(put_usage(out)),
        Err(AskError::NoMemory) => Status::NoMemory,
    }
}

// The words of the call, of which the first is the program's name.
fn words<R: Runtime + AllocGlobal>(rt: &R) -> io::Result<Vec<String>> {
    Ok(env::args(rt)?.collect(rt.alloc())?)
}

// The words behind the first.
fn behind_first(words: &[String]) -> &[String]
    ensures { result.now ≡ drop 1 words.now }
{
    if words.is_empty() { words } else { &words[1..] }
}

/// The status where there are no words.
pub fn status_without_words(error: &io::Error) -> Status
    ensures { (result ≡ NoMemory) ⊎ (result ≡ Fault) }
{
    match error.kind() {
        io::ErrorKind::OutOfMemory => Status::NoMemory,
        _ => Status::Fault,
    }
}

/// Does what the words behind the first ask, and tells how it ended, as `drive` does. Where there are no words, it is `NoMemory`
/// or `Fault`; then no file is opened, and nothing is put.
pub fn run_words<F: Files, S: Sink>(
    alloc: Global,
    words: io::Result<Vec<String>>,
    files: &mut F,
    out: &mut S,
) -> Status
    ensures driven { IfOk words
        (λ all. IsDriven (call (asked_by_words (drop 1 all.items)) (F.told files.old) (F.told files.new))
        (put_between result (S.told out.old) (S.told out.new))) }
    ensures without { IfErr words (λ e. (result ≡ NoMemory) ⊎ (result ≡ Fault)) }
    ensures same_files { IfErr words (λ e. F.told files.new ≡ F.told files.old) }
    ensures same_sink { IfErr words (λ e. S.told out.new ≡ S.told out.old) }
{
    match words {
        Ok(all) => drive(alloc, behind_first(all.as_slice()), files, out),
        Err(error) => status_without_words(&error),
    }
}

/// Runs the program in a runtime, and tells how it ended: as `drive` does for the words of the environment behind the first, and
/// where it gives none, `NoMemory` or `Fault`; then nothing is printed.
pub fn run_program<R: Runtime + AllocGlobal>(rt: &R) -> Status
    ensures { EndsSo result }
{
    run_words(
        rt.alloc(),
        words(rt),
        &mut DiskFiles::new(rt),
        &mut WriterSink::new(io::writer(rt)),
    )
}
