//! What the tokens of a text are, said of its bytes alone.
//!
//! `fs_lex` makes tokens lexeme by lexeme. Here is said, with no order of making, what a token is
//! (`specs/Vocabulary`), where it stands, and what stands between tokens (`specs/Tokenization`).
//! Each function is a law, stated by its contract; it does nothing.
//!
//! Promises: the scan's tokens are these, and there are no others.
//!
//! Rules: `specs/Vocabulary`, `specs/Tokenization`.

ghost use Rattle.std.specs.Prelude.{◌≡◌, ℕ, pos, ◌<◌, ◌≤◌, ◌↔◌, List, [], ◌∷◌, ◌++◌, map, length, Some, is_some, IsTrue};
ghost use Rattle.fs_model.specs.Limits.{most_name_bytes, most_number};
ghost use Rattle.fs_model.specs.Words.{is_word, is_reserved, is_name};
ghost use Rattle.fs_grammar.specs.declared.token.Flaw.TheVariants as flaws;
ghost use Rattle.fs_grammar.specs.declared.token.TokenKind.{TokenKind};
ghost use Rattle.fs_grammar.specs.declared.token.TokenKind.TheVariants.{Name, Number, Bad};
ghost use Rattle.fs_grammar.specs.declared.token.Token.{Token};
ghost use Rattle.fs_lex.specs.Scan.{tokens_of};
ghost use Rattle.fs_lex.specs.Tokenization.{BeginsNothing, StandsBefore, AreTokens, IsTokenIn, kind_and_place};
ghost use Rattle.fs_lex.specs.Vocabulary.{reserved_kind, punctuation_kind, is_number, number_value};

/// The tokens of a text are the longest words, numbers and pieces of punctuation, one behind the
/// other, with blanks and comments alone between them. The last is the end of the bytes, or the
/// first that is no token of the language.
pub fn a_text_is_its_tokens()
    ensures { (bytes : List ℕ) → AreTokens [] bytes (tokens_of bytes) }
{}

/// Each token of a text stands in it: the bytes are a prefix, its own and a rest. Its line is 1 plus
/// the LFs of the prefix, and its column 1 plus the bytes of the prefix after the last LF.
pub fn each_token_stands_in_the_text()
    ensures { (bytes : List ℕ) (before behind : List Token) (t : Token) → tokens_of bytes ≡ before ++ t ∷ behind
        → IsTokenIn bytes t }
{}

/// A text has one list of tokens: what stands where is determined by the bytes.
pub fn a_text_has_one_list_of_tokens()
    ensures { (bytes : List ℕ) (ts : List Token) → AreTokens [] bytes ts
        → map kind_and_place ts ≡ map kind_and_place (tokens_of bytes) }
{}

/// A token's bytes determine its kind. A word has a token of its own exactly where it is reserved,
/// else it is a name, and it is bad exactly where it has more than 32 bytes; a number is bad exactly
/// above 2^127 - 1.
pub fn a_kind_is_that_of_the_bytes()
    ensures reserved { (t u : TokenKind) (own rest : List ℕ) → StandsBefore t own rest → reserved_kind own ≡ Some u → t ≡ u }
    ensures keywords { (own : List ℕ) → is_some (reserved_kind own) ≡ is_reserved own }
    ensures names { (t : TokenKind) (own rest : List ℕ) → StandsBefore t own rest → IsTrue (is_name own) → t ≡ Name own }
    ensures words { (t : TokenKind) (own rest : List ℕ) → StandsBefore t own rest → IsTrue (is_word own)
        → (t ≡ Bad flaws.Word) ↔ (most_name_bytes < length own) }
    ensures numbers { (t : TokenKind) (own rest : List ℕ) → StandsBefore t own rest → IsTrue (is_number own)
        → number_value own ≤ most_number → t ≡ Number (pos (number_value own)) }
    ensures large { (t : TokenKind) (own rest : List ℕ) → StandsBefore t own rest → IsTrue (is_number own)
        → (t ≡ Bad flaws.Number) ↔ (most_number < number_value own) }
    ensures punctuation { (t u : TokenKind) (own rest : List ℕ) → StandsBefore t own rest
        → punctuation_kind own ≡ Some u → t ≡ u }
{}

/// A byte is bad exactly where no word, number, punctuation, blank or comment begins with it.
pub fn a_byte_is_bad_where_nothing_begins()
    ensures bad { (own rest : List ℕ) → StandsBefore (Bad flaws.Byte) own rest → (b : ℕ) × (own ≡ b ∷ []) × BeginsNothing b rest }
    ensures only { (t : TokenKind) (b : ℕ) (own rest more : List ℕ) → StandsBefore t own rest → own ++ rest ≡ b ∷ more
        → BeginsNothing b more → t ≡ Bad flaws.Byte }
{}
