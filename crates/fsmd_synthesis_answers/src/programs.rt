//! The texts of compiled programs.

ghost use Rattle.std.specs.Prelude.{IsTrue, IfOk};
ghost use Rattle.std.specs.Result.{IfErr};
ghost use Rattle.hls_program_parts.specs.Compiled.{parts_of};
ghost use Rattle.hls_program_parts.specs.WellFormedPrograms.{is_well_formed_program};
ghost use Rattle.hls_program_parts.specs.View.{program_of};
ghost use Rattle.hls_lang.specs.Refusals.{IsRefusalOf};
ghost use Rattle.fsmd_synthesis_answers.specs.ProgramAnswers.{IsCompiledText};

use fs_write::write_parts;
use hls_lang::compile::{Compiled, compile};
use hls_lang::fault::LangError;
use hls_lang::program::Program;
use hls_program_parts::laws::parts_of_programs_are_well_formed;
use std::alloc::Global;

/// The canonical text of the parts to which a well-formed program is compiled, which spells a machine that does what the program
/// does. `Check` comes exactly where the parts break a rule, and names the first; `Text` is never answered. `NoMemory` may come
/// at any time.
pub fn compiled_text(alloc: Global, program: &Program) -> Result<Vec<u8>, LangError>
    requires formed { IsTrue (is_well_formed_program (program_of program.now)) }
    ensures compiled { IfOk result (λ text. IsCompiledText (program_of program.now) text.items) }
    ensures refused { IfErr result (λ e. IsRefusalOf (parts_of (program_of program.now)) e) }
{
    parts_of_programs_are_well_formed();
    let Compiled { parts, .. } = compile(alloc, program)?;
    match write_parts(alloc, &parts) {
        Ok(text) => Ok(text),
        Err(_) => Err(LangError::NoMemory),
    }
}
