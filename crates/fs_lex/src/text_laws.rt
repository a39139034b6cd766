//! Laws of machine texts: what bytes can read as. The functions do nothing.

ghost use Rattle.std.specs.Prelude.{◌≡◌, ℕ, ◌&&◌, ◌⊎◌, ◌↔◌, nat_le, List, ◌∷◌, ◌++◌, Ok, Err, IsTrue};
ghost use Rattle.std.specs.List.{All};
ghost use Rattle.fs_model.specs.Source.{Source};
ghost use Rattle.fs_model.specs.WellFormed.{is_well_formed};
ghost use Rattle.fs_grammar.specs.declared.fault.TextFault.{TextFault};
ghost use Rattle.fs_grammar.specs.declared.token.Token.{Token};
ghost use Rattle.fs_grammar.specs.Grammar.{at_start, reading};
ghost use Rattle.fs_grammar.specs.Operators.{is_operator};
ghost use Rattle.fs_grammar.specs.ExpressionEnds.{EndInExpression};
ghost use Rattle.fs_lex.specs.Scan.{tokens_of};
ghost use Rattle.fs_lex.specs.Tokenization.{IsTokenIn};
ghost use Rattle.fs_lex.specs.Kinds.{IsProper, end_once};
ghost use Rattle.fs_lex.specs.Limit.{operator_count, SpellWithin, StopWithin};
ghost use Rattle.fs_lex.specs.MachineTexts.{TextSpells, TextStops};

/// What bytes read as is well formed: no number is negative, each declaration has a name, each port
/// is an output, and each guard, assignment and emit has at most 128 operators and brackets that are
/// needed.
pub fn what_is_read_is_well_formed()
    ensures { (bytes : List ℕ) (s : Source) → reading (tokens_of bytes) at_start ≡ Ok s → IsTrue (is_well_formed s) }
{}

/// The tokens of a text end once: the last is the end of the bytes, or the first that is no token of
/// the language, and no other is such.
pub fn tokens_end_once()
    ensures { (bytes : List ℕ) → IsTrue (end_once (tokens_of bytes)) }
{}

/// Each name among the tokens is a name, and each number is from 0 to 2^127 - 1.
pub fn tokens_are_proper()
    ensures { (bytes : List ℕ) → All (λ t. IsProper t.kind) (tokens_of bytes) }
{}

/// An operator or opening bracket behind a part of one guard or one assignment is marked exactly
/// where that part has at least 128 of them. Nothing else is marked.
pub fn the_mark_counts_the_expression()
    ensures counts { (bytes : List ℕ) (before behind part : List Token) (t : Token) → tokens_of bytes ≡ before ++ t ∷ behind
        → EndInExpression before part → t.past_limit ≡ (is_operator t.kind && nat_le 128 (operator_count part)) }
    ensures alone { (bytes : List ℕ) (before behind : List Token) (t : Token) → tokens_of bytes ≡ before ++ t ∷ behind
        → IsTrue t.past_limit → IsTrue (is_operator t.kind) }
{}

/// A text reads as a source exactly where its tokens up to the end spell it and each guard and
/// assignment of the text has at most 128 operators and opening brackets.
pub fn what_is_read_is_spelled_within_the_limit()
    ensures found { (bytes : List ℕ) (s : Source) → reading (tokens_of bytes) at_start ≡ Ok s → SpellWithin (tokens_of bytes) s }
    ensures only { (bytes : List ℕ) (s : Source) → SpellWithin (tokens_of bytes) s → reading (tokens_of bytes) at_start ≡ Ok s }
{}

/// A text is refused exactly at its first token that is faulty by itself, cannot follow, or can and
/// is the 129th operator or opening bracket of one guard or one assignment.
pub fn the_fault_is_at_the_first_wrong_token_of_a_text()
    ensures found { (bytes : List ℕ) (f : TextFault) → reading (tokens_of bytes) at_start ≡ Err f
        → StopWithin (tokens_of bytes) f }
    ensures only { (bytes : List ℕ) (f : TextFault) → StopWithin (tokens_of bytes) f
        → reading (tokens_of bytes) at_start ≡ Err f }
{}

/// The place of a fault is that of the first byte of a token in the text, and of Ended the end of the
/// bytes: its line is 1 plus the LFs before it, its column 1 plus the bytes after the last of these.
pub fn a_fault_has_its_place_in_the_text()
    ensures { (bytes : List ℕ) (f : TextFault) → reading (tokens_of bytes) at_start ≡ Err f
        → (s : StopWithin (tokens_of bytes) f) × IsTokenIn bytes s.token }
{}

/// A text is read exactly as what its bytes spell, and refused exactly where they are faulty.
pub fn a_text_is_read_as_its_bytes_spell()
    ensures spells { (bytes : List ℕ) (s : Source) → (reading (tokens_of bytes) at_start ≡ Ok s) ↔ TextSpells bytes s }
    ensures stops { (bytes : List ℕ) (f : TextFault) → (reading (tokens_of bytes) at_start ≡ Err f) ↔ TextStops bytes f }
{}

/// Bytes spell one source or have one fault, and not both.
pub fn a_text_spells_one_source_or_has_one_fault()
    ensures either { (bytes : List ℕ) → ((s : Source) × TextSpells bytes s) ⊎ ((f : TextFault) × TextStops bytes f) }
    ensures sources { (bytes : List ℕ) (s r : Source) → TextSpells bytes s → TextSpells bytes r → s ≡ r }
    ensures faults { (bytes : List ℕ) (f g : TextFault) → TextStops bytes f → TextStops bytes g → f ≡ g }
    ensures apart { (bytes : List ℕ) (s : Source) (f : TextFault) → TextSpells bytes s → TextStops bytes f → ⊥ }
{}
