//! The declarations and the reset state of a text.

ghost use Rattle.std.specs.Prelude.{◌≡◌, ◌<◌, ◌≤◌, ◌++◌, ◌∷◌, false, IsTrue, List, ℕ, Some, [], map, length, IfOk};
ghost use Rattle.fs_model.specs.declared.parts.Role.{Role};
ghost use Rattle.fs_model.specs.declared.parts.Role.TheVariants.{Output};
ghost use Rattle.fs_model.specs.declared.parts.Sort.TheVariants as sorts;
ghost use Rattle.fs_model.specs.Source.{Declaration};
ghost use Rattle.fs_model.specs.View.{declaration_of};
ghost use Rattle.fs_grammar.specs.declared.format.Format as formats;
ghost use Rattle.fs_grammar.specs.declared.token.TokenKind.TheVariants as kinds;
ghost use Rattle.fs_grammar.specs.Tokens.{ParsesOn, kind_at, line_at};
ghost use Rattle.fs_grammar.specs.Grammar.{with_names, reading, at_declaration, at_sort, at_declared, at_reset, at_state};
ghost use Rattle.fs_text_parser.specs.DeclarationStarts.{begins_declaration};

use crate::parts::{join, push_read};
use crate::words::semicolon;
use fs_grammar::fault::ReadError;
use fs_grammar::format::Format;
use fs_grammar::token::{Token, TokenKind, accept, front, line_of, refuse};
use fs_model::name::Name;
use fs_model::parts::{Decl, Role, Sort};
use fs_phrase_text::declarations::name;
use std::alloc::Global;

// The sort that a declaration says.
fn sort(tokens: &[Token]) -> Result<(Sort, &[Token]), ReadError>
    ensures goes { (f : formats.Format) (ds : List Declaration) (n : ℕ) (r : Role)
        → ParsesOn result (reading tokens.now (at_sort f ds n r))
        (λ x. reading x.1.now (at_declared f ds (record { line = n; role = r; sort = x.0; names = [] }))) }
    ensures shorter { IfOk result (λ x. length x.1.now ≤ length tokens.now) }
{
    fs_phrase_text::declarations::sort(tokens)
}

// Names up to the end of their declaration.
fn names(alloc: Global, tokens: &[Token]) -> Result<(Vec<Name>, &[Token]), ReadError>
    ensures goes { (f : formats.Format) (ds : List Declaration) (d : Declaration)
        → ParsesOn result (reading tokens.now (at_declared f ds d))
        (λ x. reading x.1.now (at_declaration f (ds ++ with_names d x.0.items ∷ []))) }
    ensures shorter { IfOk result (λ x. length x.1.now < length tokens.now) }
{
    fs_phrase_text::declarations::names(alloc, tokens)
}

fn begins_declaration(tokens: &[Token]) -> bool
    ensures { result ≡ begins_declaration (kind_at tokens.now) }
{
    match front(tokens) {
        Some(TokenKind::Declare(_)) => true,
        Some(TokenKind::Port) => true,
        _ => false,
    }
}

// The word `port`, which can follow in format 2 alone.
#[tactic(auto, using(crate::proofs::Steps::port_taken, crate::proofs::Steps::port_refused))]
fn port(format: Format, tokens: &[Token]) -> Result<&[Token], ReadError>
    requires { kind_at tokens.now ≡ Some kinds.Port }
    ensures goes { (ds : List Declaration)
        → ParsesOn result (reading tokens.now (at_declaration format ds))
        (λ r. reading r.now
        (at_declared format ds (record { line = line_at tokens.now; role = Output; sort = sorts.Port; names = [] }))) }
    ensures shorter { IfOk result (λ r. length r.now < length tokens.now) }
{
    match format {
        Format::One => Err(refuse(tokens)),
        Format::Two => accept(tokens),
    }
}

// What stands before the names of a declaration.
fn kind(format: Format, tokens: &[Token]) -> Result<(Role, (Sort, &[Token])), ReadError>
    requires { IsTrue (begins_declaration (kind_at tokens.now)) }
    ensures goes { (ds : List Declaration)
        → ParsesOn result (reading tokens.now (at_declaration format ds))
        (λ x. reading x.1.1.now
        (at_declared format ds (record { line = line_at tokens.now; role = x.0; sort = x.1.0; names = [] }))) }
    ensures shorter { IfOk result (λ x. length x.1.1.now < length tokens.now) }
{
    match front(tokens) {
        Some(TokenKind::Declare(role)) => {
            let role = *role;
            let rest = accept(tokens)?;
            join(role, sort(rest))
        }
        Some(TokenKind::Port) => join(Role::Output, join(Sort::Port, port(format, tokens))),
        _ => Err(refuse(tokens)),
    }
}

fn declaration(
    alloc: Global,
    format: Format,
    tokens: &[Token],
) -> Result<(Decl, &[Token]), ReadError>
    requires { IsTrue (begins_declaration (kind_at tokens.now)) }
    ensures goes { (ds : List Declaration)
        → ParsesOn result (reading tokens.now (at_declaration format ds))
        (λ x. reading x.1.now (at_declaration format (ds ++ declaration_of x.0 ∷ []))) }
    ensures shorter { IfOk result (λ x. length x.1.now < length tokens.now) }
{
    let line = line_of(tokens);
    let (role, (sort, rest)) = kind(format, tokens)?;
    let (names, rest) = names(alloc, rest)?;
    let read = Decl {
        line,
        role,
        sort,
        names,
    };
    Ok((read, rest))
}

// The word `reset`, after the declarations.
fn reset_word(tokens: &[Token]) -> Result<&[Token], ReadError>
    requires { begins_declaration (kind_at tokens.now) ≡ false }
    ensures { (f : formats.Format) (ds : List Declaration)
        → ParsesOn result (reading tokens.now (at_declaration f ds)) (λ r. reading r.now (at_reset f ds (line_at tokens.now))) }
{
    match front(tokens) {
        Some(TokenKind::Reset) => accept(tokens),
        _ => Err(refuse(tokens)),
    }
}

/// The declarations and the word `reset`, with its line. An `Err` is the first fault, or out of memory.
pub fn declarations(
    alloc: Global,
    format: Format,
    tokens: &[Token],
) -> Result<(Vec<Decl>, u32, &[Token]), ReadError>
    ensures { ParsesOn result (reading tokens.now (at_declaration format []))
        (λ x. reading x.2.now (at_reset format (map declaration_of x.0.items) x.1)) }
{
    let mut all = Vec::new(alloc);
    let mut rest = tokens;
    'each: while begins_declaration(rest) {
        rest = push_read(&mut all, declaration(alloc, format, rest))?;
    }
    let line = line_of(rest);
    let (all, rest) = join(all, reset_word(rest))?;
    Ok((all, line, rest))
}

/// The name of the reset state, after the word `reset`. An `Err` is the first fault, or out of memory.
pub fn reset(alloc: Global, tokens: &[Token]) -> Result<(Name, &[Token]), ReadError>
    ensures { (f : formats.Format) (ds : List Declaration) (n : ℕ)
        → ParsesOn result (reading tokens.now (at_reset f ds n))
        (λ x. reading x.1.now (at_state f (record { declarations = ds; reset_line = n; reset = x.0; states = [] }))) }
{
    let (name, rest) = name(alloc, tokens)?;
    join(name, semicolon(rest))
}
