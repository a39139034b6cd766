//! Declarations of texts, by themselves.
//!
//! Each language that declares scalars and arrays reads them by these calls. Their contracts speak of a
//! token machine of one declaration alone (`specs/Declaring`), after its first word.

ghost use Rattle.std.specs.Prelude.{◌<◌, ◌≤◌, ◌∷◌, ℕ, Ok, [], length, cond, IfOk};
ghost use Rattle.fs_model.specs.declared.parts.Role.{Role};
ghost use Rattle.fs_model.specs.Source.{Declaration};
ghost use Rattle.fs_grammar.specs.Tokens.{Gives, ParsesOn};
ghost use Rattle.fs_grammar.specs.PartEnds.{name_in};
ghost use Rattle.fs_grammar.specs.Grammar.{with_names};
ghost use Rattle.fs_phrase_text.specs.Declaring.{parse_declaration, at_sort, at_name, after_name};

use fs_grammar::fault::ReadError;
use fs_grammar::token::{Token, TokenKind, accept, front, refuse};
use fs_model::name::Name;
use fs_model::parts::Sort;
use std::alloc::Global;

/// A name, and the tokens after it. `Text` is a fault at the first token; `NoMemory`: out of memory.
pub fn name(alloc: Global, tokens: &[Token]) -> Result<(Name, &[Token]), ReadError>
    ensures { Gives (λ x. (x.0, x.1.now)) result (name_in tokens.now) }
{
    match front(tokens) {
        Some(TokenKind::Name(name)) => {
            let name = name.try_clone(alloc)?;
            let rest = accept(tokens)?;
            Ok((name, rest))
        }
        _ => Err(refuse(tokens)),
    }
}

/// The sort that a declaration says: the word `array`, or nothing, which is scalars. An `Err` is the first fault.
#[tactic(auto, using(crate::proofs::Steps::no_array))]
pub fn sort(tokens: &[Token]) -> Result<(Sort, &[Token]), ReadError>
    ensures goes { (n : ℕ) (r : Role) → ParsesOn result (parse_declaration tokens.now (at_sort n r))
        (λ x. parse_declaration x.1.now (at_name (record { line = n; role = r; sort = x.0; names = [] }))) }
    ensures shorter { IfOk result (λ x. length x.1.now ≤ length tokens.now) }
{
    match front(tokens) {
        Some(TokenKind::Array) => {
            let rest = accept(tokens)?;
            Ok((Sort::Array, rest))
        }
        _ => Ok((Sort::Scalar, tokens)),
    }
}

// A name that is declared.
#[tactic(auto, using(crate::proofs::Steps::name_declared))]
fn declared_name(alloc: Global, tokens: &[Token]) -> Result<(Name, &[Token]), ReadError>
    ensures goes { (d : Declaration) → ParsesOn result (parse_declaration tokens.now (at_name d))
        (λ x. parse_declaration x.1.now (after_name (with_names d (x.0 ∷ [])))) }
    ensures shorter { IfOk result (λ x. length x.1.now < length tokens.now) }
{
    let (name, rest) = name(alloc, tokens)?;
    Ok((name, rest))
}

// What follows a declared name: whether it is a comma, and not the end of the declaration.
fn separator(tokens: &[Token]) -> Result<(bool, &[Token]), ReadError>
    ensures goes { (d : Declaration) → ParsesOn result (parse_declaration tokens.now (after_name d))
        (λ x. cond x.0 (parse_declaration x.1.now (at_name d)) (Ok (d, x.1.now))) }
    ensures shorter { IfOk result (λ x. length x.1.now < length tokens.now) }
{
    match front(tokens) {
        Some(TokenKind::Comma) => {
            let rest = accept(tokens)?;
            Ok((true, rest))
        }
        Some(TokenKind::Semicolon) => {
            let rest = accept(tokens)?;
            Ok((false, rest))
        }
        _ => Err(refuse(tokens)),
    }
}

/// Names up to the semicolon that ends their declaration, and the tokens after it. `Text` is the first fault;
/// `NoMemory`: out of memory.
pub fn names(alloc: Global, tokens: &[Token]) -> Result<(Vec<Name>, &[Token]), ReadError>
    ensures goes { (d : Declaration)
        → Gives (λ x. (with_names d x.0.items, x.1.now)) result (parse_declaration tokens.now (at_name d)) }
    ensures shorter { IfOk result (λ x. length x.1.now < length tokens.now) }
{
    let mut all = Vec::new(alloc);
    let mut rest = tokens;
    loop {
        let (one, after) = declared_name(alloc, rest)?;
        all.push(one)?;
        let (more, after) = separator(after)?;
        if !more {
            return Ok((all, after));
        }
        rest = after;
    }
}
