//! Laws of texts in quotes. The functions do nothing.

ghost use Rattle.std.specs.Prelude.{◌≡◌, ◌++◌, ℕ, List, Some};
ghost use Rattle.show_machine_pictures.specs.Quotes.{quoted_text, read_quoted};

/// A text in quotes reads as this text, up to its closing quote, whatever follows.
pub fn quoted_texts_are_read()
    ensures { (text rest : List ℕ) → read_quoted (quoted_text text ++ rest) ≡ Some (text, rest) }
{}
