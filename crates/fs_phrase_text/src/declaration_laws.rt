//! What the reading of declarations by themselves means by the grammar alone.
//!
//! `fs_phrase_text` says token by token how a declaration is read, behind its first word. Here what is
//! read is tied to the grammar, which has no order of reading. Each function is a law, stated by its
//! contract over all lists of tokens; it does nothing.

ghost use Rattle.std.specs.Prelude.{◌≡◌, List, Ok, Err};
ghost use Rattle.fs_model.specs.Source.{Declaration};
ghost use Rattle.fs_grammar.specs.declared.fault.TextFault.{TextFault};
ghost use Rattle.fs_grammar.specs.declared.format.Format.{Format};
ghost use Rattle.fs_grammar.specs.declared.token.Token.{Token};
ghost use Rattle.fs_grammar.specs.Faults.{AreEndedTokens};
ghost use Rattle.fs_phrase_text.specs.Declaring.{parse_declaration};
ghost use Rattle.fs_phrase_text.specs.Declarations.{Opening, declaration_start, IsOf, DeclarationStandsFirst, DeclarationStopsAt};

/// A declaration that is read stands first in the tokens behind its first word: those up to the rest
/// spell it with that word, and none of them is past the limit.
pub fn what_is_read_stands_first()
    ensures { (f : Format) (o : Opening) (d : Declaration) (ts rest : List Token) → IsOf f o
        → parse_declaration ts (declaration_start o) ≡ Ok (d, rest) → DeclarationStandsFirst f o d ts rest }
{}

/// A declaration that stands first in the tokens behind its first word is read, and the rest is left.
pub fn what_stands_first_is_read()
    ensures { (f : Format) (o : Opening) (d : Declaration) (ts rest : List Token) → DeclarationStandsFirst f o d ts rest
        → parse_declaration ts (declaration_start o) ≡ Ok (d, rest) }
{}

/// The fault is at the first token that is wrong, and says what is wrong with it. Tokens are ended
/// where the last of them is the end, or faulty by itself, as those of a text are.
pub fn the_fault_is_at_the_first_wrong_token()
    ensures found { (f : Format) (o : Opening) (fault : TextFault) (ts : List Token) → IsOf f o → AreEndedTokens ts
        → parse_declaration ts (declaration_start o) ≡ Err fault → DeclarationStopsAt f o ts fault }
    ensures only { (f : Format) (o : Opening) (fault : TextFault) (ts : List Token) → IsOf f o → DeclarationStopsAt f o ts fault
        → parse_declaration ts (declaration_start o) ≡ Err fault }
{}
