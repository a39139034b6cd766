//! The tokens of a program, from those of its bytes.
//!
//! The words of programs are no names, and operators are counted anew in each guard and each assignment.

ghost use Rattle.std.specs.Prelude.{◌≡◌, ◌<◌, ◌≤◌, ◌+◌, ◌^◌};
ghost use Rattle.fs_grammar.specs.Tokens.{MadeAs};
ghost use Rattle.hls_program_parts.specs.Marks.{opens_relation, is_counted, starts_anew, operators_up_to};
ghost use Rattle.hls_program_parts.specs.Marks.{is_past_program_limit};
ghost use Rattle.hls_program_parts.specs.Marks.{marked_token, program_tokens};
ghost use Rattle.hls_program_parts.specs.ProgramKeywords.{program_word, program_kind};

use fs_grammar::fault::ReadError;
use fs_grammar::token::{Token, TokenKind};
use fs_model::limits::OPERATOR_LIMIT;
use fs_model::name::Name;
use std::alloc::Global;

// The token of a word of programs. `None` exactly for other names.
fn program_word(name: &Name) -> Option<TokenKind>
    ensures { result ≡ program_word name.now }
{
    let bytes = name.bytes();
    let kind = if bytes == b"prog".as_slice() {
        TokenKind::Prog
    } else if bytes == b"if".as_slice() {
        TokenKind::If
    } else if bytes == b"else".as_slice() {
        TokenKind::Else
    } else if bytes == b"while".as_slice() {
        TokenKind::While
    } else {
        return None;
    };
    Some(kind)
}

// What a token of a text is in a program.
fn program_kind(kind: TokenKind) -> TokenKind
    ensures { result ≡ program_kind kind }
{
    match kind {
        TokenKind::Name(name) => match program_word(&name) {
            Some(word) => word,
            None => TokenKind::Name(name),
        },
        other => other,
    }
}

// Whether a unit of a guard may begin behind the token; `unit` tells it of the place before the token.
fn opens_unit(unit: bool, kind: &TokenKind) -> bool
    ensures { result ≡ opens_relation unit kind.now }
{
    match kind {
        TokenKind::If | TokenKind::While | TokenKind::Bang | TokenKind::AndAnd | TokenKind::OrOr =>
            true,
        TokenKind::OpenBrace => unit,
        _ => false,
    }
}

// Whether the limit counts the token: operators and opening brackets, but not the brace of a block.
fn is_counted(unit: bool, kind: &TokenKind) -> bool
    ensures { result ≡ is_counted unit kind.now }
{
    match kind {
        TokenKind::OpenBrace => unit,
        TokenKind::Plus
        | TokenKind::Minus
        | TokenKind::Star
        | TokenKind::Slash
        | TokenKind::Percent
        | TokenKind::OpenParen
        | TokenKind::OpenBracket
        | TokenKind::Bang
        | TokenKind::AndAnd
        | TokenKind::OrOr
        | TokenKind::Relation(_) => true,
        _ => false,
    }
}

// Whether the next guard or assignment begins behind the token.
fn starts_anew(unit: bool, kind: &TokenKind) -> bool
    ensures { result ≡ starts_anew unit kind.now }
{
    match kind {
        TokenKind::If | TokenKind::While | TokenKind::Semicolon => true,
        TokenKind::OpenBrace => !unit,
        _ => false,
    }
}

// The operators of the guard or assignment up to the token, where so many stand before it.
fn count_operators(unit: bool, kind: &TokenKind, operators: usize) -> usize
    requires { operators + 1 < 2 ^ 64 }
    ensures is { result ≡ operators_up_to unit kind.now operators }
    ensures small { result ≤ operators + 1 }
{
    if starts_anew(unit, kind) {
        0
    } else if is_counted(unit, kind) {
        operators + 1
    } else {
        operators
    }
}

// Whether the token is an operator behind as many as a guard or an assignment may have.
fn is_past_limit(unit: bool, kind: &TokenKind, operators: usize) -> bool
    ensures { result ≡ is_past_program_limit unit kind.now operators }
{
    is_counted(unit, kind) && operators >= OPERATOR_LIMIT as usize
}

// A token of a program, behind so many operators.
fn mark_token(unit: bool, operators: usize, token: Token) -> Token
    ensures { result ≡ marked_token unit operators token }
{
    let place = token.place;
    let kind = program_kind(token.kind);
    let past_limit = is_past_limit(unit, &kind, operators);
    Token {
        kind,
        past_limit,
        place,
    }
}

/// The tokens of a program, from those of its bytes. The only refusal is out of memory.
pub fn program_tokens(alloc: Global, tokens: Vec<Token>) -> Result<Vec<Token>, ReadError>
    ensures { MadeAs result (λ v. v.items ≡ program_tokens tokens.items) }
{
    let mut out = Vec::with_capacity(alloc, tokens.len())?;
    let mut rest = tokens.into_iter();
    let mut unit = false;
    let mut operators = 0;
    'each: while let Some(token) = rest.next() {
        let token = mark_token(unit, operators, token);
        operators = count_operators(unit, &token.kind, operators);
        unit = opens_unit(unit, &token.kind);
        out.push(token)?;
    }
    Ok(out)
}
