//! Laws of programs and of what they are compiled to. The functions do nothing.

ghost use Rattle.std.specs.Prelude.{◌≡◌, ℕ, ◌<◌, ◌^◌, IsTrue};
ghost use Rattle.fs_model.specs.Limits.{most_states};
ghost use Rattle.fs_model.specs.WellFormed.{is_well_formed as are_well_formed_parts};
ghost use Rattle.fs_model.specs.Words.{is_name};
ghost use Rattle.fs_rules.specs.MachineOfParts.{machine_of};
ghost use Rattle.hls_program_parts.specs.Programs.{Program};
ghost use Rattle.hls_program_parts.specs.ProgramMeaning.{DoesAs};
ghost use Rattle.hls_program_parts.specs.Compiled.{count, parts_of, state_name, states_of};
ghost use Rattle.hls_program_parts.specs.WellFormedPrograms.{is_well_formed_program};
ghost use Rattle.hls_program_parts.specs.WorkedProgram as examples;

/// The machine of a program of fewer than 4,096 statements does what the program does: from the same inputs it has a run to the
/// same outputs exactly where the program ends with them.
pub fn a_program_is_compiled()
    ensures { (p : Program) → count p.body < most_states → DoesAs p (machine_of (parts_of p)) }
{}

/// The parts of a well-formed program are well formed.
pub fn parts_of_programs_are_well_formed()
    ensures { (p : Program) → IsTrue (is_well_formed_program p) → IsTrue (are_well_formed_parts (parts_of p)) }
{}

/// The names of states are names.
pub fn states_are_named()
    ensures { (n : ℕ) → n < 2 ^ 64 → IsTrue (is_name (state_name n)) }
{}

/// A worked program: the states of a loop that adds.
pub fn a_loop_is_compiled()
    ensures { states_of (λ n. n) examples.body 1 0 ≡ examples.example_states }
{}
