//! Laws of the grammar: reading and spelling. The functions do nothing.

ghost use Rattle.std.specs.Prelude.{◌≡◌, ℕ, IsTrue, List, [], ◌∷◌, ◌++◌, Some, None, Ok, Err};
ghost use Rattle.fs_model.specs.declared.parts.Rel.{Rel};
ghost use Rattle.fs_model.specs.Expressions.{Expression, Variable, Difference, Guard, Test, Not, And};
ghost use Rattle.fs_model.specs.Source.{Source};
ghost use Rattle.fs_grammar.specs.declared.fault.TextFault.{TextFault};
ghost use Rattle.fs_grammar.specs.declared.format.Format.{Format};
ghost use Rattle.fs_grammar.specs.declared.format.Format.TheVariants.{One};
ghost use Rattle.fs_grammar.specs.declared.token.TokenKind.{TokenKind};
ghost use Rattle.fs_grammar.specs.declared.token.TokenKind.TheVariants.{Fsmd, Name, Number, Semicolon, Minus, Bang, AndAnd};
ghost use Rattle.fs_grammar.specs.declared.token.TokenKind.TheVariants.{Relation};
ghost use Rattle.fs_grammar.specs.declared.token.Token.{Token};
ghost use Rattle.fs_grammar.specs.Formats.{format_number, is_of_format_two};
ghost use Rattle.fs_grammar.specs.Operators.{is_operator};
ghost use Rattle.fs_grammar.specs.Grammar.{ParseState, at_start, step, reading};
ghost use Rattle.fs_grammar.specs.Spelling.{Word, at, IsSum, IsGuard, IsFile};
ghost use Rattle.fs_grammar.specs.WordWalks.{walk, words};
ghost use Rattle.fs_grammar.specs.Beginnings.{Rule, Part, IsAlternative, SpellsWhole, AreSpelled, Begins, BeginsFile};
ghost use Rattle.fs_grammar.specs.ExpressionEnds.{IsInExpression, IsSince, EndInExpression};
ghost use Rattle.fs_grammar.specs.Faults.{Spells, CanFollow, StopsAt, AreEndedTokens};

/// A source that is read is spelled: the tokens up to the end spell it, and none of them is past the
/// limit.
pub fn what_is_read_is_spelled()
    ensures { (s : Source) (ts : List Token) → reading ts at_start ≡ Ok s → Spells s ts }
{}

/// A source that is spelled is read.
pub fn what_is_spelled_is_read()
    ensures { (s : Source) (ts : List Token) → Spells s ts → reading ts at_start ≡ Ok s }
{}

/// The fault is at the first token that is wrong, and says what is wrong with it. Tokens are ended
/// where the last of them is the end, or faulty by itself, as those of a text are.
pub fn the_fault_is_at_the_first_wrong_token()
    ensures found { (f : TextFault) (ts : List Token) → AreEndedTokens ts → reading ts at_start ≡ Err f → StopsAt ts f }
    ensures only { (f : TextFault) (ts : List Token) → StopsAt ts f → reading ts at_start ≡ Err f }
{}

/// Words lead somewhere exactly where they begin a file, and a token can follow them exactly where
/// the reading has a step for it.
pub fn a_token_can_follow_where_there_is_a_step()
    ensures leads { (ws : List Word) (s : ParseState) → walk ws at_start ≡ Some s → BeginsFile ws }
    ensures sticks { (ws : List Word) → walk ws at_start ≡ None → BeginsFile ws → ⊥ }
    ensures follows { (ws : List Word) (s r : ParseState) (n : ℕ) (t : TokenKind) → walk ws at_start ≡ Some s
        → step s n t ≡ Some r → BeginsFile (ws ++ at n t ∷ []) }
    ensures fails { (ws : List Word) (s : ParseState) (n : ℕ) (t : TokenKind) → walk ws at_start ≡ Some s → step s n t ≡ None
        → BeginsFile (ws ++ at n t ∷ []) → ⊥ }
{}

/// A text spells one source at most, in one format, and words spell one sum and one guard at most.
pub fn a_text_spells_one_source()
    ensures tokens { (s r : Source) (ts : List Token) → Spells s ts → Spells r ts → s ≡ r }
    ensures words { (f g : Format) (s r : Source) (ws : List Word) → IsFile f s ws → IsFile g r ws → s ≡ r }
    ensures formats { (f g : Format) (s r : Source) (ws : List Word) → IsFile f s ws → IsFile g r ws → f ≡ g }
    ensures sums { (s r : Expression (List ℕ)) (ws : List Word) → IsSum s ws → IsSum r ws → s ≡ r }
    ensures guards { (g h : Guard (List ℕ)) (ws : List Word) → IsGuard g ws → IsGuard h ws → g ≡ h }
{}

/// Two examples of what is spelled: chains group to the left, as in `x - y - z`, and `!` binds more
/// strongly than `&&` and takes a whole literal, as in `!x == y && x == z`.
pub fn chains_group_to_the_left()
    ensures sum { (n : ℕ) (x y z : List ℕ)
        → IsSum (Difference (Difference (Variable x) (Variable y)) (Variable z))
        (at n (Name x) ∷ at n Minus ∷ at n (Name y) ∷ at n Minus ∷ at n (Name z) ∷ []) }
    ensures guard { (n : ℕ) (r : Rel) (x y z : List ℕ)
        → IsGuard
        (And (Not (Test (record { relation = r; left = Variable x; right = Variable y })))
        (Test (record { relation = r; left = Variable x; right = Variable z })))
        (at n Bang ∷ at n (Name x) ∷ at n (Relation r) ∷ at n (Name y) ∷ at n AndAnd ∷ at n (Name x) ∷ at n (Relation r)
        ∷ at n (Name z) ∷ []) }
{}

/// A rule is spelled whole exactly by whole spellings of the parts of one of its alternatives.
pub fn a_rule_is_spelled_by_its_alternatives()
    ensures whole { (r : Rule) (ps : List Part) (ws : List Word) → IsAlternative r ps → AreSpelled ps ws → SpellsWhole r ws }
    ensures parts { (r : Rule) (ws : List Word) → SpellsWhole r ws → (ps : List Part) × IsAlternative r ps × AreSpelled ps ws }
{}

/// What begins a rule is what can go on to a whole spelling of it: with some words behind it is
/// one, and the words before any others of a whole spelling begin the rule.
pub fn what_begins_a_rule_can_go_on()
    ensures more { (r : Rule) (ws : List Word) → Begins r ws → (m : List Word) × SpellsWhole r (ws ++ m) }
    ensures front { (r : Rule) (a b : List Word) → SpellsWhole r (a ++ b) → Begins r a }
{}

/// An operator or an opening bracket stands in one guard or one assignment: where it can follow
/// words, these end in a part of one. That part is what stands behind the last word after which a
/// guard or an assignment begins.
pub fn an_operator_stands_in_one_expression()
    ensures found { (ws : List Word) (n : ℕ) (t : TokenKind) → IsTrue (is_operator t) → BeginsFile (ws ++ at n t ∷ [])
        → (part : List Word) × IsInExpression ws part }
    ensures one { (ws p q : List Word) → IsInExpression ws p → IsInExpression ws q → p ≡ q }
    ensures tokens { (ts : List Token) (t : Token) → IsTrue (is_operator t.kind) → CanFollow (words ts) t
        → (part : List Token) × EndInExpression ts part }
    ensures since { (ws part : List Word) → IsInExpression ws part → IsSince ws part }
{}

/// Ports and emits need format 2: neither of their words can follow in a file of format 1.
pub fn ports_need_format_two()
    ensures { (i j k n : ℕ) (t : TokenKind) (ws : List Word) → IsTrue (is_of_format_two t)
        → BeginsFile (at i Fsmd ∷ at j (Number (format_number One)) ∷ at k Semicolon ∷ (ws ++ at n t ∷ [])) → ⊥ }
{}
