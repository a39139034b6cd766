//! Laws of printed machine texts: each spells the machine of its parts. The functions do nothing.

ghost use Rattle.std.specs.Prelude.{◌≡◌, ℕ, IsTrue, List, ◌++◌, length};
ghost use Rattle.std.specs.List.{All, concat};
ghost use Rattle.fs_model.specs.Source.{Source};
ghost use Rattle.fs_model.specs.WellFormed.{is_well_formed};
ghost use Rattle.fs_rules.specs.MachineOfParts.{machine_of};
ghost use Rattle.fs_rules.specs.Rules.{BreaksNoRule};
ghost use Rattle.fs_lex.specs.Tokenization.{IsGap};
ghost use Rattle.fs_lex.specs.MachineTexts.{TextSpells};
ghost use Rattle.fs_write.specs.Canonical.{canonical};
ghost use Rattle.fs_write.specs.CanonicalLines.{with_canonical_lines};
ghost use Rattle.fs_write.specs.Spellable.{is_spellable};
ghost use Rattle.fs_write.specs.CommentLines.{IsCommentLine, line_feeds, lines_moved};

/// The canonical text of parts that a text can spell does spell them, each with its line in that text. With these lines
/// the parts spell the machine that they spelled before, and keep the rules where they kept them before.
pub fn a_canonical_text_spells_its_parts_machine()
    ensures spells { (s : Source) → IsTrue (is_well_formed s) → IsTrue (is_spellable s)
        → TextSpells (canonical s) (with_canonical_lines s) }
    ensures machine { (s : Source) → machine_of (with_canonical_lines s) ≡ machine_of s }
    ensures lawful { (s : Source) → BreaksNoRule s → BreaksNoRule (with_canonical_lines s) }
{}

/// Comment lines before a text, as any blanks and comments, move each line of what the text spells down by the lines that
/// they end, and change nothing else. Further down the parts spell the machine that they spelled before, and keep the
/// rules where they kept them before.
pub fn comment_lines_change_lines_alone()
    ensures spells { (lines : List (List ℕ)) (bytes : List ℕ) (s : Source) → All IsCommentLine lines → TextSpells bytes s
        → TextSpells (concat lines ++ bytes) (lines_moved (length lines) s) }
    ensures gaps { (gap bytes : List ℕ) (s : Source) → IsGap gap → TextSpells bytes s
        → TextSpells (gap ++ bytes) (lines_moved (line_feeds gap) s) }
    ensures machine { (n : ℕ) (s : Source) → machine_of (lines_moved n s) ≡ machine_of s }
    ensures lawful { (n : ℕ) (s : Source) → BreaksNoRule s → BreaksNoRule (lines_moved n s) }
{}
