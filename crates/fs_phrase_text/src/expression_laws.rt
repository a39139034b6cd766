//! What the reading of sums and guards by themselves means by the grammar alone.
//!
//! `fs_expression_text` says token by token how a sum or a guard is read in any language. Here what is read
//! is tied to the grammar, which has no order of reading. Each function is a law, stated by its contract
//! over all lists of tokens; it does nothing.

ghost use Rattle.std.specs.Prelude.{◌≡◌, ℕ, List, ◌∷◌, Ok, Err};
ghost use Rattle.fs_model.specs.Expressions.{Expression, Guard};
ghost use Rattle.fs_grammar.specs.declared.fault.TextFault.{TextFault};
ghost use Rattle.fs_grammar.specs.declared.token.Token.{Token};
ghost use Rattle.fs_grammar.specs.PartEnds.{EndsSum, EndsGuard};
ghost use Rattle.fs_grammar.specs.Faults.{AreEndedTokens};
ghost use Rattle.fs_expression_text.specs.Inside.{Whole, whole_sum, whole_guard, after_sum, sum_alone, after_guard, guard_alone};
ghost use Rattle.fs_expression_text.specs.Inside.{parse_expression};
ghost use Rattle.fs_phrase_text.specs.Expressions.{ExpressionKind, a_sum, a_guard, expression_start, ExpressionStandsFirst};
ghost use Rattle.fs_phrase_text.specs.Expressions.{ExpressionStopsAt};

/// A sum or a guard that is read stands first in the tokens: those up to the rest spell it, none of
/// them is past the limit, and it does not go on with the first token of the rest.
pub fn what_is_read_stands_first()
    ensures { (e : ExpressionKind) (w : Whole) (ts rest : List Token) → parse_expression ts (expression_start e) ≡ Ok (w, rest)
        → ExpressionStandsFirst e w ts rest }
{}

/// A sum or a guard that stands first in the tokens is read, and the rest is left.
pub fn what_stands_first_is_read()
    ensures { (e : ExpressionKind) (w : Whole) (ts rest : List Token) → ExpressionStandsFirst e w ts rest
        → parse_expression ts (expression_start e) ≡ Ok (w, rest) }
{}

/// The fault is at the first token that is wrong, and says what is wrong with it. Tokens are ended
/// where the last of them is the end, or faulty by itself, as those of a text are.
pub fn the_fault_is_at_the_first_wrong_token()
    ensures found { (e : ExpressionKind) (f : TextFault) (ts : List Token) → AreEndedTokens ts
        → parse_expression ts (expression_start e) ≡ Err f → ExpressionStopsAt e ts f }
    ensures only { (e : ExpressionKind) (f : TextFault) (ts : List Token) → ExpressionStopsAt e ts f
        → parse_expression ts (expression_start e) ≡ Err f }
{}

/// A sum or a guard that a call reads stands first in the tokens. The premises are what the contracts of
/// `sum` and `guard` say of one by itself: the tokens read as the rest does behind it, and the rest begins
/// with no operator that goes on with it.
pub fn what_a_call_reads_stands_first()
    ensures sums { (s : Expression (List ℕ)) (ts behind : List Token) (t : Token)
        → parse_expression ts (expression_start a_sum) ≡ parse_expression (t ∷ behind) (after_sum s sum_alone)
        → EndsSum (t ∷ behind) → ExpressionStandsFirst a_sum (whole_sum s) ts (t ∷ behind) }
    ensures guards { (g : Guard (List ℕ)) (ts behind : List Token) (t : Token)
        → parse_expression ts (expression_start a_guard) ≡ parse_expression (t ∷ behind) (after_guard g guard_alone)
        → EndsGuard (t ∷ behind) → ExpressionStandsFirst a_guard (whole_guard g) ts (t ∷ behind) }
{}
