//! Laws of the canonical text, as contracts of functions that do nothing.

ghost use Rattle.std.specs.Prelude.{◌≡◌, ℕ, List, IsTrue, Ok};
ghost use Rattle.fs_model.specs.Expressions.{Expression, Guard};
ghost use Rattle.fs_model.specs.Source.{Source};
ghost use Rattle.fs_model.specs.WellFormed.{is_well_formed};
ghost use Rattle.fs_grammar.specs.Grammar.{at_start, reading};
ghost use Rattle.fs_lex.specs.Scan.{tokens_of};
ghost use Rattle.fs_write.specs.Canonical.{canonical};
ghost use Rattle.fs_write.specs.Bare.{BareExpression, BareGuard, IsTextOfAnother, IsTextOfAnotherGuard};
ghost use Rattle.fs_write.specs.Spellable.{is_spellable};
ghost use Rattle.fs_write.specs.CanonicalLines.{with_canonical_lines, without_lines};

/// What is written is read back: the canonical text of parts that a text can spell reads as these
/// parts, each with its line in that text.
pub fn what_is_written_is_read_back()
    ensures { (s : Source) → IsTrue (is_well_formed s) → IsTrue (is_spellable s)
        → reading (tokens_of (canonical s)) at_start ≡ Ok (with_canonical_lines s) }
{}

/// The parts that are read back are the ones that were written, but for lines.
pub fn only_lines_change()
    ensures { (s : Source) → without_lines (with_canonical_lines s) ≡ without_lines s }
{}

/// Parts with the same canonical text are the same but for lines.
pub fn a_text_has_one_meaning()
    ensures { (s t : Source) → IsTrue (is_well_formed s) → IsTrue (is_spellable s) → IsTrue (is_well_formed t)
        → IsTrue (is_spellable t) → canonical s ≡ canonical t → without_lines s ≡ without_lines t }
{}

/// What was read back can be written, and that gives the same text again.
pub fn writing_again_changes_nothing()
    ensures text { (s : Source) → canonical (with_canonical_lines s) ≡ canonical s }
    ensures well_formed { (s : Source) → is_well_formed (with_canonical_lines s) ≡ is_well_formed s }
    ensures spellable { (s : Source) → is_spellable (with_canonical_lines s) ≡ is_spellable s }
{}

/// No brackets that are written round an operand can be left out, however deep it stands: without
/// them the text is that of another expression or guard.
pub fn no_bracket_can_be_left_out()
    ensures expressions { (t : Expression (List ℕ)) (text : List ℕ) → BareExpression t text → IsTextOfAnother t text }
    ensures guards { (g : Guard (List ℕ)) (text : List ℕ) → BareGuard g text → IsTextOfAnotherGuard g text }
{}
