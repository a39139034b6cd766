//! The declarations of a program.

ghost use Rattle.std.specs.Prelude.{◌≡◌, ◌<◌, ◌≤◌, List, ℕ, Some, None, [], map, length, IfOk};
ghost use Rattle.fs_model.specs.declared.parts.Role as roles;
ghost use Rattle.fs_model.specs.Source.{Declaration};
ghost use Rattle.fs_model.specs.View.{declaration_of};
ghost use Rattle.fs_grammar.specs.Tokens.{ParsesOn};
ghost use Rattle.fs_grammar.specs.Grammar.{with_names};
ghost use Rattle.fs_phrase_text.specs.Declaring as declaring;
ghost use Rattle.hls_program_parts.specs.ProgramGrammar.{program_reading, at_declaration, in_declaration, with_declaration};
ghost use Rattle.hls_program_text.specs.Fronts.{role_at};

use fs_grammar::fault::ReadError;
use fs_grammar::token::{Token, TokenKind, accept, front, line_of};
use fs_model::memory::push_value;
use fs_model::name::Name;
use fs_model::parts::{Decl, Role, Sort};
use std::alloc::Global;

// The sort that a declaration says.
fn sort(tokens: &[Token]) -> Result<(Sort, &[Token]), ReadError>
    ensures goes { (ds : List Declaration) (n : ℕ) (r : roles.Role)
        → ParsesOn result (program_reading tokens.now (in_declaration ds (declaring.at_sort n r)))
        (λ x. program_reading x.1.now
        (in_declaration ds (declaring.at_name (record { line = n; role = r; sort = x.0; names = [] })))) }
    ensures shorter { IfOk result (λ x. length x.1.now ≤ length tokens.now) }
{
    fs_phrase_text::declarations::sort(tokens)
}

// Names up to the end of their declaration.
fn names(alloc: Global, tokens: &[Token]) -> Result<(Vec<Name>, &[Token]), ReadError>
    ensures goes { (ds : List Declaration) (d : Declaration)
        → ParsesOn result (program_reading tokens.now (in_declaration ds (declaring.at_name d)))
        (λ x. program_reading x.1.now (at_declaration (with_declaration ds (with_names d x.0.items)))) }
    ensures shorter { IfOk result (λ x. length x.1.now < length tokens.now) }
{
    fs_phrase_text::declarations::names(alloc, tokens)
}

// The role with which a declaration begins, if the first token is one.
fn role(tokens: &[Token]) -> Option<Role>
    ensures { result ≡ role_at tokens.now }
{
    match front(tokens) {
        Some(TokenKind::Declare(role)) => Some(*role),
        _ => None,
    }
}

fn declaration(alloc: Global, role: Role, tokens: &[Token]) -> Result<(Decl, &[Token]), ReadError>
    requires { role_at tokens.now ≡ Some role }
    ensures goes { (ds : List Declaration)
        → ParsesOn result (program_reading tokens.now (at_declaration ds))
        (λ x. program_reading x.1.now (at_declaration (with_declaration ds (declaration_of x.0)))) }
    ensures shorter { IfOk result (λ x. length x.1.now < length tokens.now) }
{
    let line = line_of(tokens);
    let rest = accept(tokens)?;
    let (sort, rest) = sort(rest)?;
    let (names, rest) = names(alloc, rest)?;
    let read = Decl {
        line,
        role,
        sort,
        names,
    };
    Ok((read, rest))
}

/// The declarations, and the tokens after them. An `Err` is the first fault, or out of memory.
pub fn declarations(alloc: Global, tokens: &[Token]) -> Result<(Vec<Decl>, &[Token]), ReadError>
    ensures goes { ParsesOn result (program_reading tokens.now (at_declaration []))
        (λ x. program_reading x.1.now (at_declaration (map declaration_of x.0.items))) }
    ensures ends { IfOk result (λ x. role_at x.1.now ≡ None) }
{
    let mut all = Vec::new(alloc);
    let mut rest = tokens;
    'each: while let Some(role) = role(rest) {
        let (one, after) = declaration(alloc, role, rest)?;
        push_value(&mut all, one)?;
        rest = after;
    }
    Ok((all, rest))
}
