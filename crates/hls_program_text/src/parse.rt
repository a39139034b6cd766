//! A program, from its tokens.

ghost use Rattle.std.specs.Prelude.{◌≡◌, List, None, []};
ghost use Rattle.fs_model.specs.Source.{Declaration};
ghost use Rattle.fs_grammar.specs.Tokens.{Gives, ParsesOn};
ghost use Rattle.hls_program_parts.specs.Programs as plain;
ghost use Rattle.hls_program_parts.specs.View.{block_of, program_of};
ghost use Rattle.hls_program_parts.specs.ProgramGrammar.{program_reading, at_prog, after_prog, at_declaration, at_end};
ghost use Rattle.hls_program_text.specs.Fronts.{role_at};

use crate::assignments::semicolon;
use crate::blocks::block;
use crate::declarations::declarations;
use fs_grammar::fault::ReadError;
use fs_grammar::token::{Token, TokenKind, accept, front, refuse};
use hls_program_parts::program::{Program, Stmt};
use std::alloc::Global;

// The word `prog`.
fn first_word(tokens: &[Token]) -> Result<&[Token], ReadError>
    ensures { ParsesOn result (program_reading tokens.now at_prog) (λ r. program_reading r.now after_prog) }
{
    match front(tokens) {
        Some(TokenKind::Prog) => accept(tokens),
        _ => Err(refuse(tokens)),
    }
}

// The end of a program.
fn end(tokens: &[Token]) -> Result<(), ReadError>
    ensures { (p : plain.Program) → Gives (λ u. p) result (program_reading tokens.now (at_end p)) }
{
    match front(tokens) {
        Some(TokenKind::End) => Ok(()),
        _ => Err(refuse(tokens)),
    }
}

// The head of a program.
fn head(tokens: &[Token]) -> Result<&[Token], ReadError>
    ensures { ParsesOn result (program_reading tokens.now at_prog) (λ r. program_reading r.now (at_declaration [])) }
{
    let rest = first_word(tokens)?;
    semicolon(rest)
}

// The outermost block.
fn outermost_block(alloc: Global, tokens: &[Token]) -> Result<(Vec<Stmt>, &[Token]), ReadError>
    requires { role_at tokens.now ≡ None }
    ensures { (ds : List Declaration)
        → ParsesOn result (program_reading tokens.now (at_declaration ds))
        (λ x. program_reading x.1.now (at_end (record { declarations = ds; body = block_of x.0.items }))) }
{
    block(alloc, 0, tokens)
}

// The outermost block, which ends the program.
fn body(alloc: Global, tokens: &[Token]) -> Result<Vec<Stmt>, ReadError>
    requires { role_at tokens.now ≡ None }
    ensures { (ds : List Declaration)
        → Gives (λ b. record { declarations = ds; body = block_of b.items }) result
        (program_reading tokens.now (at_declaration ds)) }
{
    let (body, rest) = outermost_block(alloc, tokens)?;
    end(rest)?;
    Ok(body)
}

/// The program that the tokens spell. `Text` is the fault at the first token that can follow in no program, is past the
/// limit, or opens a block too deep in others; `NoMemory`: out of memory.
pub fn parse(alloc: Global, tokens: &[Token]) -> Result<Program, ReadError>
    ensures { Gives program_of result (program_reading tokens.now at_prog) }
{
    let rest = head(tokens)?;
    let (decls, rest) = declarations(alloc, rest)?;
    let body = body(alloc, rest)?;
    Ok(Program { decls, body })
}
