//! The words of the command line.

ghost use Rattle.std.specs.Prelude.{◌≡◌, IfOk, IfErr, None, Some, map, string_bytes};
ghost use Rattle.fsmd_words.specs.AskedWords.{AreTaken, IsWithinLimits, asked_of_ask, asked_of};
ghost use Rattle.fsmd_words.specs.declared.asking.AskError.TheVariants as errors;

use crate::asking::{Ask, AskError};
use crate::reading::read;
use clap::error::ErrorKind;
use fsmd_command_line::command_line::command_line;
use std::alloc::Global;

/// What the words after the program's name ask.
///
/// Options stand anywhere after the command, as `--steps 5` or `--steps=5`, each at most once. `Usage` comes only for
/// words that are not taken: `clap` refuses them, as it does a request for help, or the number of a chain's files is
/// even. `NoMemory` comes where memory is refused.
pub fn ask(alloc: Global, words: &[String]) -> Result<Ask, AskError>
    ensures ok { IfOk result (λ ask. asked_of (map string_bytes words.now) ≡ Some (asked_of_ask ask)) }
    ensures taken { IfOk result (λ _. AreTaken (map string_bytes words.now)) }
    ensures usage { IfErr result (λ error. error ≡ errors.Usage → AreTaken (map string_bytes words.now) → ⊥) }
    ensures none { IfErr result (λ error. error ≡ errors.Usage → asked_of (map string_bytes words.now) ≡ None) }
    ensures limits { IfOk result (λ ask. IsWithinLimits (asked_of_ask ask)) }
{
    let command = command_line(alloc)?;
    match command.try_get_matches_from(words) {
        Ok(matches) => match matches.subcommand() {
            Some((name, found)) => read(alloc, name, found),
            None => Err(AskError::Usage),
        },
        Err(error) => {
            if error.kind() == ErrorKind::OutOfMemory {
                Err(AskError::NoMemory)
            } else {
                Err(AskError::Usage)
            }
        }
    }
}
