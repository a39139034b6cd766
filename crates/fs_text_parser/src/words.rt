//! The first tokens of a text, and single tokens.

ghost use Rattle.std.specs.Prelude.{◌≡◌, ◌<◌, [], length, IfOk};
ghost use Rattle.fs_model.specs.Source.{Source};
ghost use Rattle.fs_grammar.specs.declared.format.Format as formats;
ghost use Rattle.fs_grammar.specs.Tokens.{ParsesOn};
ghost use Rattle.fs_text_parser.specs.DeclarationStarts.{format_at};
ghost use Rattle.fs_grammar.specs.Grammar.{OpenState, reading, at_start, at_format, at_semicolon, at_declaration, after_reset};
ghost use Rattle.fs_grammar.specs.Grammar.{at_state, after_state_name, at_transition};

use fs_grammar::fault::ReadError;
use fs_grammar::format::Format;
use fs_grammar::token::{Token, TokenKind, accept, front, refuse};

// The word `fsmd`.
fn first_word(tokens: &[Token]) -> Result<&[Token], ReadError>
    ensures { ParsesOn result (reading tokens.now at_start) (λ r. reading r.now at_format) }
{
    match front(tokens) {
        Some(TokenKind::Fsmd) => accept(tokens),
        _ => Err(refuse(tokens)),
    }
}

// The format that the first token says, if it says one.
fn format_said(tokens: &[Token]) -> Option<Format>
    ensures { result ≡ format_at tokens.now }
{
    match front(tokens) {
        Some(TokenKind::Number(number)) => Format::of(*number),
        _ => None,
    }
}

// The number of the format.
#[tactic(auto, using(crate::proofs::Steps::format_taken, crate::proofs::Steps::format_refused))]
fn format(tokens: &[Token]) -> Result<(Format, &[Token]), ReadError>
    ensures { ParsesOn result (reading tokens.now at_format) (λ x. reading x.1.now (at_semicolon x.0)) }
{
    let Some(format) = format_said(tokens) else {
        return Err(refuse(tokens));
    };
    let rest = accept(tokens)?;
    Ok((format, rest))
}

/// The head of a text, `fsmd 1;` or `fsmd 2;`: its format, and the tokens after it. The first token that is another is the
/// fault.
pub fn header(tokens: &[Token]) -> Result<(Format, &[Token]), ReadError>
    ensures { ParsesOn result (reading tokens.now at_start) (λ x. reading x.1.now (at_declaration x.0 [])) }
{
    let rest = first_word(tokens)?;
    let (format, rest) = format(rest)?;
    let rest = semicolon(rest)?;
    Ok((format, rest))
}

/// The semicolon after the format, or after the name of the reset state. Another token there is the fault.
pub fn semicolon(tokens: &[Token]) -> Result<&[Token], ReadError>
    ensures head { (f : formats.Format) → ParsesOn result (reading tokens.now (at_semicolon f))
        (λ r. reading r.now (at_declaration f [])) }
    ensures reset { (f : formats.Format) (s : Source)
        → ParsesOn result (reading tokens.now (after_reset f s)) (λ r. reading r.now (at_state f s)) }
{
    match front(tokens) {
        Some(TokenKind::Semicolon) => accept(tokens),
        _ => Err(refuse(tokens)),
    }
}

/// The colon after the name of a state. Another token there is the fault.
pub fn colon(tokens: &[Token]) -> Result<&[Token], ReadError>
    ensures goes { (d : OpenState) → ParsesOn result (reading tokens.now (after_state_name d))
        (λ r. reading r.now (at_transition d)) }
    ensures shorter { IfOk result (λ r. length r.now < length tokens.now) }
{
    match front(tokens) {
        Some(TokenKind::Colon) => accept(tokens),
        _ => Err(refuse(tokens)),
    }
}
