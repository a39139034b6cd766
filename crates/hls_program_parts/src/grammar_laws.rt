//! The grammar of programs, and what their reading means by it. The functions do nothing.
//!
//! A program is read token by token (`specs/ProgramGrammar`), from the tokens of its bytes (`specs/Marks`). The grammar
//! itself is stated with no order of reading: which words spell which parts (`specs/ProgramSpelling`), what begins a program
//! (`specs/ProgramBeginnings`), and the limits on operators and on nested blocks (`specs/ProgramLimits`). Each function is a
//! law.

ghost use Rattle.std.specs.Prelude.{◌≡◌, ◌⊎◌, ◌↔◌, ℕ, List, Ok, Err, IsTrue};
ghost use Rattle.fs_grammar.specs.declared.fault.TextFault.{TextFault};
ghost use Rattle.fs_grammar.specs.Spelling.{Word};
ghost use Rattle.fs_lex.specs.Scan.{tokens_of};
ghost use Rattle.hls_program_parts.specs.Programs.{Program};
ghost use Rattle.hls_program_parts.specs.WellFormedPrograms.{is_well_formed_program};
ghost use Rattle.hls_program_parts.specs.ProgramGrammar.{at_prog, program_reading};
ghost use Rattle.hls_program_parts.specs.Marks.{program_tokens};
ghost use Rattle.hls_program_parts.specs.ProgramSpelling.{IsProgram};
ghost use Rattle.hls_program_parts.specs.ProgramTexts.{TextSpellsProgram, ProgramTextStops};

/// Words spell one program at most.
pub fn words_spell_one_program()
    ensures { (p q : Program) (ws : List Word) → IsProgram p ws → IsProgram q ws → p ≡ q }
{}

/// Bytes are read as the program that they spell, and refused exactly where they are faulty.
pub fn a_program_is_read_as_its_bytes_spell()
    ensures spells { (bytes : List ℕ) (p : Program)
        → (program_reading (program_tokens (tokens_of bytes)) at_prog ≡ Ok p) ↔ TextSpellsProgram bytes p }
    ensures stops { (bytes : List ℕ) (f : TextFault)
        → (program_reading (program_tokens (tokens_of bytes)) at_prog ≡ Err f) ↔ ProgramTextStops bytes f }
{}

/// Bytes spell one program or have one fault, and not both.
pub fn bytes_spell_one_program_or_have_one_fault()
    ensures either { (bytes : List ℕ) → ((p : Program) × TextSpellsProgram bytes p)
        ⊎ ((f : TextFault) × ProgramTextStops bytes f) }
    ensures programs { (bytes : List ℕ) (p q : Program) → TextSpellsProgram bytes p → TextSpellsProgram bytes q → p ≡ q }
    ensures faults { (bytes : List ℕ) (f g : TextFault) → ProgramTextStops bytes f → ProgramTextStops bytes g → f ≡ g }
    ensures apart { (bytes : List ℕ) (p : Program) (f : TextFault) → TextSpellsProgram bytes p → ProgramTextStops bytes f → ⊥ }
{}

/// What bytes spell is well formed: each declaration has a name and declares no port, no name is a word of programs, no
/// number is negative, each guard and each assignment has at most 128 operators and brackets that are needed, and blocks
/// nest at most 64 deep.
pub fn what_is_spelled_is_well_formed()
    ensures { (bytes : List ℕ) (p : Program) → TextSpellsProgram bytes p → IsTrue (is_well_formed_program p) }
{}
