//! What the words of a call are answered.

mod chains;
mod machines;
mod pairs;
mod synthesis;

ghost use Rattle.std.specs.Prelude.{Some};
ghost use Rattle.fsmd_words.specs.AskedWords.{IsWithinLimits, asked_of_ask};
ghost use Rattle.fsmd_answers.specs.Follows.{FollowsFrom};
ghost use Rattle.fsmd_tool.specs.Calls.{call, OnlyRead, LoadsNamed, IsCorrectInOrder, AnswersBy};

use crate::answer::chains::chain_files;
use crate::answer::machines::{cut_paths, format_text, run_files};
use crate::answer::pairs::{PairCommand, answer_pair};
use crate::answer::synthesis::{bind_files, compile_file, schedule_files};
use crate::load::load_pair;
use fs_base::outside::Files;
use fsmd_answers::generated::compare_generated;
use fsmd_answers::refused::{Refused, made_answer};
use fsmd_replies::answer::Answer;
use fsmd_words::asking::Ask;
use std::alloc::Global;

/// What a command answers: a correct answer, from the files that its words name, which are loaded in order; none behind the one
/// that settles it, and each once.
///
/// `Answered` comes where a file is refused or cannot be loaded, with the answer that is then given; it is correct too.
/// `NoMemory`: out of memory.
pub fn answer<F: Files>(alloc: Global, ask: &Ask, files: &mut F) -> Result<Answer, Refused>
    requires { IsWithinLimits (asked_of_ask ask.now) }
    ensures answers { AnswersBy (IsCorrectInOrder (FollowsFrom (Some (asked_of_ask ask.now))) 0
        (call (Some (asked_of_ask ask.now)) (F.told files.old) (F.told files.new))) result }
    ensures only_read { OnlyRead (F.told files.old) (F.told files.new) }
    ensures loads { LoadsNamed (call (Some (asked_of_ask ask.now)) (F.told files.old) (F.told files.new)) }
{
    match ask {
        Ask::Check { cert, steps, .. } => {
            let command = PairCommand::Check {
                steps: *steps,
                keeps: cert.is_some(),
            };
            answer_pair(alloc, ask, command, load_pair(alloc, ask, files), files)
        }
        Ask::Verify { .. } => answer_pair(
            alloc,
            ask,
            PairCommand::Verify,
            load_pair(alloc, ask, files),
            files,
        ),
        Ask::Run { steps, .. } => run_files(alloc, ask, *steps, files),
        Ask::Replay { steps, .. } => answer_pair(
            alloc,
            ask,
            PairCommand::Replay { steps: *steps },
            load_pair(alloc, ask, files),
            files,
        ),
        Ask::Fmt { .. } => format_text(alloc, ask, files),
        Ask::Cuts { .. } => cut_paths(alloc, ask, files),
        Ask::Generate { n } => made_answer(compare_generated(alloc, *n)),
        Ask::Compile { .. } => compile_file(alloc, ask, files),
        Ask::Schedule { .. } => schedule_files(alloc, ask, files),
        Ask::Bind { .. } => bind_files(alloc, ask, files),
        Ask::Shrink { steps, .. } => answer_pair(
            alloc,
            ask,
            PairCommand::Shrink { steps: *steps },
            load_pair(alloc, ask, files),
            files,
        ),
        Ask::Chain { files: words } => chain_files(alloc, ask, words.as_slice(), files),
    }
}
