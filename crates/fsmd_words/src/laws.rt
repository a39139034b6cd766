//! Laws of the words. The functions do nothing.

ghost use Rattle.std.specs.Prelude.{List, IsSome};
ghost use Rattle.clap.specs.Words.{Text};
ghost use Rattle.fsmd_words.specs.AskedWords.{AreTaken, asked_of};
ghost use Rattle.fsmd_words.specs.Examples.{OtherStepsAreRefused, PlainWordsAreFiles, RefusedExamples, TakenExamples};

/// Words ask something exactly where they are taken.
pub fn taken_words_ask()
    ensures taken { (words : List Text) → AreTaken words → IsSome (asked_of words) }
    ensures refused { (words : List Text) → IsSome (asked_of words) → AreTaken words }
{}

/// Words that begin with no hyphen are the files of a command, in their order, and what is left out is at its default.
pub fn plain_words_are_files()
    ensures { PlainWordsAreFiles }
{}

/// Examples of words that are taken, and what they ask.
pub fn examples_are_taken()
    ensures { TakenExamples }
{}

/// Examples of words that are refused, and why.
pub fn examples_are_refused()
    ensures { RefusedExamples }
{}

/// Where `--steps` stands last, behind the files of a command, none of which begins with a hyphen, its value is refused where it
/// spells no number from 1 to 100,000: a word of its own that begins with no hyphen, or any text behind `=`. Words that spell
/// lesser or greater numbers are among these.
pub fn other_steps_are_refused()
    ensures { OtherStepsAreRefused }
{}
