//! What stands at the front of a text: a blank, a comment or a token.
//!
//! A word, a number and punctuation are as long as they can be.

ghost use Rattle.std.specs.Prelude.{◌≡◌, ◌<◌, ◌≤◌, ◌^◌, length, IfOk, SomeIff};
ghost use Rattle.std.specs.List.{prefix_len};
ghost use Rattle.fs_model.specs.Digits.{value_of_digits};
ghost use Rattle.fs_model.specs.Words.{is_digit, is_word_byte};
ghost use Rattle.fs_grammar.specs.Tokens.{MadeAs};
ghost use Rattle.fs_lex.specs.Lexemes.{is_space, is_in_comment, keyword_of, word_token, number_token};
ghost use Rattle.fs_lex.specs.Lexemes.{double_punctuation, mark, operator, single_punctuation, punctuation_of, lexeme_of, size};

use fs_grammar::fault::ReadError;
use fs_grammar::token::{Flaw, TokenKind};
use fs_model::limits::NUMBER_LIMIT;
use fs_model::name::{Name, is_digit, is_letter, is_word_byte};
use fs_model::parts::{Rel, Role};
use std::alloc::Global;

// The largest number of a text, without a sign.
const GREATEST: u128 = NUMBER_LIMIT as u128;

/// What stands at the front of a text, and how many bytes it takes: a blank or a comment, or a
/// token.
#[derive(Drop)]
pub enum Lexeme {
    Blank(usize),
    Token(TokenKind, usize),
}

// Whether the byte separates tokens.
fn is_space(b: u8) -> bool
    ensures { result ≡ is_space b }
{
    b == b' ' || b == b'\t' || b == b'\r' || b == b'\n'
}

// The bytes up to the end of the line.
fn comment_len(bytes: &[u8]) -> usize
    ensures is { result ≡ prefix_len is_in_comment bytes.now }
    ensures fits { result ≤ length bytes.now }
{
    bytes.iter().take_while(|b| **b != b'\n').count()
}

// The bytes with which a word goes on.
fn word_len(bytes: &[u8]) -> usize
    ensures is { result ≡ prefix_len is_word_byte bytes.now }
    ensures fits { result ≤ length bytes.now }
{
    bytes.iter().take_while(|b| is_word_byte(**b)).count()
}

// The digits at the front.
fn digits_len(bytes: &[u8]) -> usize
    ensures is { result ≡ prefix_len is_digit bytes.now }
    ensures fits { result ≤ length bytes.now }
{
    bytes.iter().take_while(|b| is_digit(**b)).count()
}

// The token of a reserved word. `None` exactly when the word is not reserved.
fn keyword(bytes: &[u8]) -> Option<TokenKind>
    ensures { result ≡ keyword_of bytes.now }
{
    let kind = if bytes == b"fsmd".as_slice() {
        TokenKind::Fsmd
    } else if bytes == b"input".as_slice() {
        TokenKind::Declare(Role::Input)
    } else if bytes == b"output".as_slice() {
        TokenKind::Declare(Role::Output)
    } else if bytes == b"local".as_slice() {
        TokenKind::Declare(Role::Local)
    } else if bytes == b"array".as_slice() {
        TokenKind::Array
    } else if bytes == b"reset".as_slice() {
        TokenKind::Reset
    } else if bytes == b"state".as_slice() {
        TokenKind::State
    } else if bytes == b"when".as_slice() {
        TokenKind::When
    } else if bytes == b"goto".as_slice() {
        TokenKind::Goto
    } else if bytes == b"start".as_slice() {
        TokenKind::Start
    } else if bytes == b"done".as_slice() {
        TokenKind::Done
    } else if bytes == b"emit".as_slice() {
        TokenKind::Emit
    } else if bytes == b"port".as_slice() {
        TokenKind::Port
    } else {
        return None;
    };
    Some(kind)
}

// The token of a word: reserved, a name, or bad where it is too long.
fn word(alloc: Global, bytes: &[u8]) -> Result<TokenKind, ReadError>
    ensures { MadeAs result (λ t. t ≡ word_token bytes.now) }
{
    if let Some(kind) = keyword(bytes) {
        return Ok(kind);
    }
    match Name::of(alloc, bytes)? {
        Some(name) => Ok(TokenKind::Name(name)),
        None => Ok(TokenKind::Bad(Flaw::Word)),
    }
}

// The number that digits spell, where it is below 2^127.
fn value(bytes: &[u8]) -> Option<u128>
    ensures { SomeIff result (value_of_digits bytes.now < 2 ^ 127) (value_of_digits bytes.now) }
{
    let mut n: u128 = 0;
    for b in bytes {
        if n > GREATEST / 10 {
            return None;
        }
        n = 10 * n + u128::from(b.saturating_sub(b'0'));
        if n > GREATEST {
            return None;
        }
    }
    Some(n)
}

// The token of a run of digits: a number, or bad where it is too large.
#[tactic(auto, unfolding(crate::specs::Lexemes::number_token))]
fn number(bytes: &[u8]) -> TokenKind
    ensures { result ≡ number_token bytes.now }
{
    match value(bytes) {
        Some(n) => TokenKind::Number(n as i128),
        None => TokenKind::Bad(Flaw::Number),
    }
}

// The token of two bytes of punctuation.
fn double_punctuation(first: u8, second: u8) -> Option<TokenKind>
    ensures { result ≡ double_punctuation first second }
{
    match (first, second) {
        (b'=', b'=') => Some(TokenKind::Relation(Rel::Eq)),
        (b'!', b'=') => Some(TokenKind::Relation(Rel::Ne)),
        (b'<', b'=') => Some(TokenKind::Relation(Rel::Le)),
        (b'>', b'=') => Some(TokenKind::Relation(Rel::Ge)),
        (b'&', b'&') => Some(TokenKind::AndAnd),
        (b'|', b'|') => Some(TokenKind::OrOr),
        _ => None,
    }
}

// The token of a byte that groups or separates.
fn mark(b: u8) -> Option<TokenKind>
    ensures { result ≡ mark b }
{
    match b {
        b';' => Some(TokenKind::Semicolon),
        b':' => Some(TokenKind::Colon),
        b',' => Some(TokenKind::Comma),
        b'=' => Some(TokenKind::Equals),
        b'(' => Some(TokenKind::OpenParen),
        b')' => Some(TokenKind::CloseParen),
        b'[' => Some(TokenKind::OpenBracket),
        b']' => Some(TokenKind::CloseBracket),
        b'{' => Some(TokenKind::OpenBrace),
        b'}' => Some(TokenKind::CloseBrace),
        _ => None,
    }
}

// The token of a byte that computes or compares, or that no token begins with.
fn operator(b: u8) -> TokenKind
    ensures { result ≡ operator b }
{
    match b {
        b'+' => TokenKind::Plus,
        b'-' => TokenKind::Minus,
        b'*' => TokenKind::Star,
        b'/' => TokenKind::Slash,
        b'%' => TokenKind::Percent,
        b'!' => TokenKind::Bang,
        b'<' => TokenKind::Relation(Rel::Lt),
        b'>' => TokenKind::Relation(Rel::Gt),
        _ => TokenKind::Bad(Flaw::Byte),
    }
}

// The token of one byte that is no letter, digit or blank.
fn single_punctuation(b: u8) -> TokenKind
    ensures { result ≡ single_punctuation b }
{
    match mark(b) {
        Some(kind) => kind,
        None => operator(b),
    }
}

// The longest punctuation at the front.
fn punctuation(bytes: &[u8]) -> Lexeme
    requires { 0 < length bytes.now }
    ensures is { result ≡ punctuation_of bytes.now }
    ensures some { 0 < size result }
    ensures fits { size result ≤ length bytes.now }
{
    if bytes.len() > 1 {
        if let Some(kind) = double_punctuation(bytes[0], bytes[1]) {
            return Lexeme::Token(kind, 2);
        }
    }
    Lexeme::Token(single_punctuation(bytes[0]), 1)
}

// What stands at the front of some bytes. An `Err` is out of memory.
pub(crate) fn next_lexeme(alloc: Global, bytes: &[u8]) -> Result<Lexeme, ReadError>
    requires { 0 < length bytes.now }
    ensures is { MadeAs result (λ l. l ≡ lexeme_of bytes.now) }
    ensures some { IfOk result (λ l. 0 < size l) }
    ensures fits { IfOk result (λ l. size l ≤ length bytes.now) }
{
    let first = bytes[0];
    if is_space(first) {
        return Ok(Lexeme::Blank(1));
    }
    if first == b'#' {
        return Ok(Lexeme::Blank(comment_len(bytes)));
    }
    if is_letter(first) {
        let n = word_len(bytes);
        return Ok(Lexeme::Token(word(alloc, &bytes[..n])?, n));
    }
    if is_digit(first) {
        let n = digits_len(bytes);
        return Ok(Lexeme::Token(number(&bytes[..n]), n));
    }
    Ok(punctuation(bytes))
}
