//! Tokens, and how the first one is taken.

ghost use Rattle.std.specs.Prelude.{◌≡◌, ◌<◌, length, IfOk, option_copied};
ghost use Rattle.fs_grammar.specs.declared.fault.ReadError.TheVariants.{Text};
ghost use Rattle.fs_grammar.specs.Tokens.{Gives, kind_at, line_at, fault_of, tokens_after, refusal};

use crate::fault::{ReadError, TextFault, TextKind, TextPlace};
use fs_model::name::Name;
use fs_model::parts::{Rel, Role};

/// What is wrong with a token by itself.
#[derive(Clone, Copy)]
pub enum Flaw {
    /// A byte that begins no token.
    Byte,
    /// A word of more than 32 bytes.
    Word,
    /// A number above 2^127 - 1.
    Number,
}

/// What a token is.
#[derive(Drop)]
pub enum TokenKind {
    /// `fsmd`
    Fsmd,
    /// `input`, `output` or `local`
    Declare(Role),
    /// `array`
    Array,
    /// `reset`
    Reset,
    /// `state`
    State,
    /// `when`
    When,
    /// `goto`
    Goto,
    /// `start`
    Start,
    /// `done`
    Done,
    /// `emit`
    Emit,
    /// `port`
    Port,
    /// `prog`, of the language of programs alone
    Prog,
    /// `if`, of the language of programs alone
    If,
    /// `else`, of the language of programs alone
    Else,
    /// `while`, of the language of programs alone
    While,
    Name(Name),
    Number(i128),
    /// `;`
    Semicolon,
    /// `:`
    Colon,
    /// `,`
    Comma,
    /// `=`
    Equals,
    /// `(`
    OpenParen,
    /// `)`
    CloseParen,
    /// `[`
    OpenBracket,
    /// `]`
    CloseBracket,
    /// `{`
    OpenBrace,
    /// `}`
    CloseBrace,
    /// `+`
    Plus,
    /// `-`
    Minus,
    /// `*`
    Star,
    /// `/`
    Slash,
    /// `%`
    Percent,
    /// `!`
    Bang,
    /// `&&`
    AndAnd,
    /// `||`
    OrOr,
    /// `==`, `!=`, `<`, `<=`, `>` or `>=`
    Relation(Rel),
    /// No token of the language.
    Bad(Flaw),
    /// The end of the bytes.
    End,
}

/// A token and the place of its first byte. It is past the limit where it counts as an operator,
/// and the guard or assignment that it stands in has 128 of them before it.
#[derive(Drop)]
pub struct Token {
    pub kind: TokenKind,
    pub past_limit: bool,
    pub place: TextPlace,
}

/// What the first token is.
pub fn front(tokens: &[Token]) -> Option<&TokenKind>
    ensures { option_copied result ≡ kind_at tokens.now }
{
    match tokens {
        [] => None,
        [first, ..] => Some(&first.kind),
    }
}

/// The line of the first token, or 0 where there is none.
pub fn line_of(tokens: &[Token]) -> u32
    ensures { result ≡ line_at tokens.now }
{
    match tokens {
        [] => 0,
        [first, ..] => first.place.line,
    }
}

/// The tokens after the first, which can follow. The fault Operators where the first is
/// past the limit.
pub fn accept(tokens: &[Token]) -> Result<&[Token], ReadError>
    ensures gives { Gives (λ r. r.now) result (tokens_after tokens.now) }
    ensures shorter { IfOk result (λ r. length r.now < length tokens.now) }
{
    match tokens {
        [] => Err(refuse(tokens)),
        [first, rest @ ..] => {
            if first.past_limit {
                return Err(fault_at(first.place, TextKind::Operators));
            }
            Ok(rest)
        }
    }
}

/// The fault at a first token that cannot follow.
pub fn refuse(tokens: &[Token]) -> ReadError
    ensures { result ≡ Text (refusal tokens.now) }
{
    match tokens {
        [] => fault_at(TextPlace { line: 0, column: 0 }, TextKind::Ended),
        [first, ..] => fault_at(first.place, fault_of(&first.kind)),
    }
}

fn fault_at(place: TextPlace, kind: TextKind) -> ReadError
    ensures { result ≡ Text (record { line = place.line; column = place.column; kind = kind }) }
{
    ReadError::Text(TextFault {
        line: place.line,
        column: place.column,
        kind,
    })
}

fn fault_of(kind: &TokenKind) -> TextKind
    ensures { result ≡ fault_of kind.now }
{
    match kind {
        TokenKind::Bad(Flaw::Byte) => TextKind::BadByte,
        TokenKind::Bad(Flaw::Word) => TextKind::BadWord,
        TokenKind::Bad(Flaw::Number) => TextKind::NumberTooBig,
        TokenKind::End => TextKind::Ended,
        _ => TextKind::Unexpected,
    }
}
