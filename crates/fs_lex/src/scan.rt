//! The tokens of a text, with their places.

ghost use Rattle.std.specs.Prelude.{◌≡◌, ◌<◌, ◌≤◌, ◌+◌, ◌^◌, length};
ghost use Rattle.fs_model.specs.Limits.{most_text_bytes};
ghost use Rattle.fs_grammar.specs.Tokens.{MadeAs};
ghost use Rattle.fs_grammar.specs.Operators.{is_operator, starts_expression};
ghost use Rattle.fs_lex.specs.Scan.{place_after_bytes, operators_up_to_token, is_past_limit, is_bad, tokens_of};

use crate::lexemes::{Lexeme, next_lexeme};
use fs_grammar::fault::{ReadError, TextPlace};
use fs_grammar::token::{Token, TokenKind};
use fs_model::limits::OPERATOR_LIMIT;
use std::alloc::Global;

// Whether the limit counts the token: operators and opening brackets.
fn is_operator(kind: &TokenKind) -> bool
    ensures { result ≡ is_operator kind.now }
{
    matches!(
        kind,
        TokenKind::Plus
            | TokenKind::Minus
            | TokenKind::Star
            | TokenKind::Slash
            | TokenKind::Percent
            | TokenKind::OpenParen
            | TokenKind::OpenBracket
            | TokenKind::OpenBrace
            | TokenKind::Bang
            | TokenKind::AndAnd
            | TokenKind::OrOr
            | TokenKind::Relation(_)
    )
}

// Whether a guard or an assignment may begin behind the token.
fn starts_expression(kind: &TokenKind) -> bool
    ensures { result ≡ starts_expression kind.now }
{
    matches!(kind, TokenKind::When | TokenKind::Colon | TokenKind::Comma)
}

// Whether the token is faulty by itself.
fn is_bad(kind: &TokenKind) -> bool
    ensures { result ≡ is_bad kind.now }
{
    matches!(kind, TokenKind::Bad(_))
}

// The operators of the guard or assignment up to the token, where so many stand before it.
fn count_operators(kind: &TokenKind, operators: usize) -> usize
    requires { operators + 1 < 2 ^ 64 }
    ensures is { result ≡ operators_up_to_token kind.now operators }
    ensures small { result ≤ operators + 1 }
{
    if starts_expression(kind) {
        0
    } else if is_operator(kind) {
        operators + 1
    } else {
        operators
    }
}

// Whether the token is an operator behind as many as a guard or an assignment may have.
fn is_past_limit(kind: &TokenKind, operators: usize) -> bool
    ensures { result ≡ is_past_limit kind.now operators }
{
    is_operator(kind) && operators >= OPERATOR_LIMIT as usize
}

// The place behind some bytes.
fn move_place(from: TextPlace, bytes: &[u8]) -> TextPlace
    requires line { from.line + length bytes.now < 2 ^ 32 }
    requires column { from.column + length bytes.now < 2 ^ 32 }
    requires some { 0 < from.column }
    ensures is { result ≡ place_after_bytes from bytes.now }
    ensures line { result.line ≤ from.line + length bytes.now }
    ensures column { result.column ≤ from.column + length bytes.now }
    ensures some { 0 < result.column }
{
    let mut place = from;
    for b in bytes {
        place = if *b == b'\n' {
            TextPlace {
                line: place.line + 1,
                column: 1,
            }
        } else {
            TextPlace {
                line: place.line,
                column: place.column + 1,
            }
        };
    }
    place
}

/// The tokens of a text of at most 1,048,576 bytes. The last is the end of the bytes, or the first
/// that is no token of the language. Each is marked where it is past the limit of its guard or
/// assignment. An `Err` is out of memory.
#[tactic(auto, using(crate::proofs::Scans::blank_scans, crate::proofs::Scans::token_scans))]
pub fn tokens(alloc: Global, bytes: &[u8]) -> Result<Vec<Token>, ReadError>
    requires { length bytes.now ≤ most_text_bytes }
    ensures { MadeAs result (λ v. v.items ≡ tokens_of bytes.now) }
{
    let mut out = Vec::new(alloc);
    let mut rest = bytes;
    let mut place = TextPlace { line: 1, column: 1 };
    let mut operators = 0;
    'each: while !rest.is_empty() {
        match next_lexeme(alloc, rest)? {
            Lexeme::Blank(n) => {
                let (front, behind) = rest.split_at(n);
                place = move_place(place, front);
                rest = behind;
            }
            Lexeme::Token(kind, n) => {
                let past_limit = is_past_limit(&kind, operators);
                let bad = is_bad(&kind);
                operators = count_operators(&kind, operators);
                out.push(Token {
                    kind,
                    past_limit,
                    place,
                })?;
                if bad {
                    return Ok(out);
                }
                let (front, behind) = rest.split_at(n);
                place = move_place(place, front);
                rest = behind;
            }
        }
    }
    out.push(Token {
        kind: TokenKind::End,
        past_limit: false,
        place,
    })?;
    Ok(out)
}
