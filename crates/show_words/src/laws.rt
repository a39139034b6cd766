//! Laws of the words. The functions do nothing.

ghost use Rattle.std.specs.Prelude.{List, IsSome};
ghost use Rattle.clap.specs.Words.{Text};
ghost use Rattle.show_words.specs.ViewExamples.{PlainWordsAreViewFiles, TakenViewExamples, RefusedViewExamples};
ghost use Rattle.show_words.specs.ViewWords.{AreTakenAsView, shown_of};

/// Words ask to see something exactly where they are taken.
pub fn taken_words_show()
    ensures taken { (words : List Text) → AreTakenAsView words → IsSome (shown_of words) }
    ensures refused { (words : List Text) → IsSome (shown_of words) → AreTakenAsView words }
{}

/// Words that begin with no hyphen are the files of a view, in their order.
pub fn plain_words_are_files()
    ensures { PlainWordsAreViewFiles }
{}

/// Examples of words with an option, and what they ask to see.
pub fn examples_are_taken()
    ensures { TakenViewExamples }
{}

/// Examples of words that are refused, and why.
pub fn examples_are_refused()
    ensures { RefusedViewExamples }
{}
