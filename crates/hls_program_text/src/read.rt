//! A program, from its bytes.

ghost use Rattle.std.specs.Prelude.{◌≤◌, length, IsTrue, IfOk};
ghost use Rattle.std.specs.Result.{IfErr};
ghost use Rattle.fs_model.specs.Limits.{most_text_bytes};
ghost use Rattle.fs_grammar.specs.Tokens.{Gives};
ghost use Rattle.fs_lex.specs.Scan.{tokens_of};
ghost use Rattle.hls_program_parts.specs.WellFormedPrograms.{is_well_formed_program};
ghost use Rattle.hls_program_parts.specs.View.{program_of};
ghost use Rattle.hls_program_parts.specs.Marks as marks;
ghost use Rattle.hls_program_parts.specs.ProgramGrammar.{program_reading, at_prog};
ghost use Rattle.hls_program_parts.specs.ProgramTexts.{TextSpellsProgram};
ghost use Rattle.hls_program_text.specs.Refusals.{IsTextRefusal};

use crate::fault::LangError;
use crate::marks::program_tokens;
use crate::parse::parse;
use fs_grammar::fault::ReadError;
use fs_lex::tokens;
use hls_program_parts::program::Program;
use std::alloc::Global;

// The program that the bytes spell.
fn read(alloc: Global, bytes: &[u8]) -> Result<Program, ReadError>
    requires { length bytes.now ≤ most_text_bytes }
    ensures { Gives program_of result (program_reading (marks.program_tokens (tokens_of bytes.now)) at_prog) }
{
    let tokens = tokens(alloc, bytes)?;
    let tokens = program_tokens(alloc, tokens)?;
    parse(alloc, &tokens)
}

/// The program that the bytes spell, which is well formed; the bytes are at most 1,048,576. `Text` comes exactly where they
/// spell none: at the first token that is faulty or can follow in no program, with its line and column and what is wrong
/// with it; `Operators` is at the first operator or opening bracket that has 128 of them before it in the one guard or
/// assignment that it stands in, and `Nested` at the first brace that opens a block in more than 64 others. `NoMemory`: out
/// of memory. `Check` is never answered.
pub fn read_program(alloc: Global, bytes: &[u8]) -> Result<Program, LangError>
    requires { length bytes.now ≤ most_text_bytes }
    ensures text { IfOk result (λ p. TextSpellsProgram bytes.now (program_of p)) }
    ensures faulty { IfErr result (λ e. IsTextRefusal bytes.now e) }
    ensures well_formed { IfOk result (λ p. IsTrue (is_well_formed_program (program_of p))) }
{
    match read(alloc, bytes) {
        Ok(program) => Ok(program),
        Err(ReadError::Text(fault)) => Err(LangError::Text(fault)),
        Err(ReadError::NoMemory) => Err(LangError::NoMemory),
    }
}
