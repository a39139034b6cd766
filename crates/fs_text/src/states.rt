//! The states of a text.

ghost use Rattle.std.specs.Prelude.{◌<◌, ◌∷◌, ℕ, [], map, length, IfOk};
ghost use Rattle.fs_model.specs.Source.{Source};
ghost use Rattle.fs_model.specs.View.{source_state_of};
ghost use Rattle.fs_grammar.specs.declared.format.Format as formats;
ghost use Rattle.fs_grammar.specs.Tokens.{Gives, ParsesOn};
ghost use Rattle.fs_grammar.specs.Grammar.{with_states, reading, at_state, at_state_name, at_transition};

use fs_grammar::fault::ReadError;
use fs_grammar::format::Format;
use fs_grammar::token::{Token, TokenKind, accept, front, line_of, refuse};
use fs_model::memory::push_value;
use fs_model::name::Name;
use fs_model::parts::RawState;
use fs_phrase_text::declarations::name;
use fs_text_parser::transitions::transitions;
use fs_text_parser::words::colon;
use std::alloc::Global;

// The rest of the header of a state, after the word `state`.
#[tactic(auto, using(fs_text_parser::proofs::Steps::name_state))]
fn state_name(alloc: Global, tokens: &[Token]) -> Result<(Name, &[Token]), ReadError>
    ensures goes { (f : formats.Format) (s : Source) (n : ℕ)
        → ParsesOn result (reading tokens.now (at_state_name f s n))
        (λ x. reading x.1.now
        (at_transition (record { format = f; source = s; state = record { line = n; name = x.0; transitions = [] } }))) }
    ensures shorter { IfOk result (λ x. length x.1.now < length tokens.now) }
{
    let (name, rest) = name(alloc, tokens)?;
    let rest = colon(rest)?;
    Ok((name, rest))
}

// The rest of a state, after the word `state`.
#[tactic(auto, using(fs_text_parser::proofs::Steps::transitions_end))]
fn state(
    alloc: Global,
    format: Format,
    line: u32,
    tokens: &[Token],
) -> Result<(RawState, &[Token]), ReadError>
    ensures goes { (s : Source) → ParsesOn result (reading tokens.now (at_state_name format s line))
        (λ x. reading x.1.now (at_state format (with_states s (source_state_of x.0 ∷ [])))) }
    ensures shorter { IfOk result (λ x. length x.1.now < length tokens.now) }
{
    let (name, rest) = state_name(alloc, tokens)?;
    let (lines, rest) = transitions(alloc, format, rest)?;
    Ok((RawState { line, name, lines }, rest))
}

/// The states, up to the end of the text. An `Err` is the first fault, or out of memory.
pub fn states(alloc: Global, format: Format, tokens: &[Token]) -> Result<Vec<RawState>, ReadError>
    ensures { (s : Source) → Gives (λ v. with_states s (map source_state_of v.items)) result
        (reading tokens.now (at_state format s)) }
{
    let mut all = Vec::new(alloc);
    let mut rest = tokens;
    'each: loop {
        let line = line_of(rest);
        match front(rest) {
            Some(TokenKind::State) => {
                let after = accept(rest)?;
                let (one, after) = state(alloc, format, line, after)?;
                push_value(&mut all, one)?;
                rest = after;
            }
            Some(TokenKind::End) => return Ok(all),
            _ => return Err(refuse(rest)),
        }
    }
}
