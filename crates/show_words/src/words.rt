//! The words of the command line.

ghost use Rattle.std.specs.Prelude.{◌≡◌, IfOk, IfErr, None, Some, map, string_bytes};
ghost use Rattle.fsmd_words.specs.declared.asking.AskError.TheVariants as errors;
ghost use Rattle.show_words.specs.ViewWords.{IsViewWithinLimits, shown_view, shown_of};

use crate::asking::Show;
use crate::command_line::command_line;
use crate::reading::read;
use clap::error::ErrorKind;
use fsmd_words::asking::AskError;
use std::alloc::Global;

/// What the words after the program's name ask to see.
///
/// An option stands anywhere after the view, as `--steps 5` or `--steps=5`, at most once. `Usage` comes only for words that
/// are not taken; a request for help is among these. `NoMemory` comes where memory is refused.
pub fn show(alloc: Global, words: &[String]) -> Result<Show, AskError>
    ensures ok { IfOk result (λ show. shown_of (map string_bytes words.now) ≡ Some (shown_view show)) }
    ensures limits { IfOk result (λ show. IsViewWithinLimits (shown_view show).view) }
    ensures none { IfErr result (λ error. error ≡ errors.Usage → shown_of (map string_bytes words.now) ≡ None) }
{
    let command = command_line(alloc)?;
    match command.try_get_matches_from(words) {
        Ok(matches) => match matches.subcommand() {
            Some((name, found)) => read(alloc, name, found),
            None => Err(AskError::Usage),
        },
        Err(error) => {
            if error.kind() == ErrorKind::OutOfMemory {
                Err(AskError::NoMemory)
            } else {
                Err(AskError::Usage)
            }
        }
    }
}
