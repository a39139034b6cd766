//! Reads programs, and compiles them.

ghost use Rattle.std.specs.Prelude.{◌≤◌, length, IsTrue, IfOk};
ghost use Rattle.std.specs.Result.{IfErr};
ghost use Rattle.fs_model.specs.Limits.{most_text_bytes};
ghost use Rattle.hls_program_parts.specs.ProgramTexts.{TextSpellsProgram};
ghost use Rattle.hls_program_parts.specs.WellFormedPrograms.{is_well_formed_program};
ghost use Rattle.hls_program_parts.specs.View.{program_of};
ghost use Rattle.fsmd_answers.specs.Readings.{Readable};
ghost use Rattle.fsmd_answers.specs.ProgramFiles.{IsOfProgramIn, RefusesProgram};
ghost use Rattle.fsmd_answers.specs.Refusing.{WhereAnswered};

use crate::refused::Refused;
use fsmd_replies::answer::{Answer, Lines, Operand};
use fsmd_synthesis_answers::fault::LangError;
use fsmd_synthesis_answers::program::Program;
use fsmd_synthesis_answers::programs::compiled_text;
use fsmd_synthesis_answers::read_program as read_program_text;
use std::alloc::Global;

// The program that the bytes of a file spell, or the answer that refuses them.
fn read_program(alloc: Global, file: Operand, bytes: &[u8]) -> Result<Program, Refused>
    requires { length bytes.now ≤ most_text_bytes }
    ensures spells { IfOk result (λ p. TextSpellsProgram bytes.now (program_of p)) }
    ensures formed { IfOk result (λ p. IsTrue (is_well_formed_program (program_of p))) }
    ensures refused { IfErr result (WhereAnswered (RefusesProgram file (Readable bytes.now))) }
{
    match read_program_text(alloc, bytes) {
        Ok(program) => Ok(program),
        Err(LangError::Text(fault)) => {
            Err(Refused::Answered(Answer::TextRefused { file, fault }))
        }
        Err(LangError::Check(_)) => unreachable!(),
        Err(LangError::NoMemory) => Err(Refused::NoMemory),
    }
}

/// The canonical text of the parts to which the program that the bytes of a file spell is compiled, or the answer that
/// refuses them.
pub fn compile_program(alloc: Global, file: Operand, bytes: &[u8]) -> Result<Answer, Refused>
    requires { length bytes.now ≤ most_text_bytes }
    ensures compiled { IfOk result (IsOfProgramIn bytes.now) }
    ensures refused { IfErr result (WhereAnswered (RefusesProgram file (Readable bytes.now))) }
{
    let program = read_program(alloc, file, bytes)?;
    match compiled_text(alloc, &program) {
        Ok(text) => Ok(Answer::Text {
            lines: Lines::of(text),
        }),
        Err(LangError::Check(fault)) => {
            Err(Refused::Answered(Answer::CheckRefused { file, fault }))
        }
        Err(LangError::Text(_)) => unreachable!(),
        Err(LangError::NoMemory) => Err(Refused::NoMemory),
    }
}
