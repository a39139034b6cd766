//! A text of a machine, from its tokens.

ghost use Rattle.std.specs.Prelude.{ℕ, List, map};
ghost use Rattle.fs_model.specs.Source.{Declaration};
ghost use Rattle.fs_model.specs.View.{source_of, source_state_of};
ghost use Rattle.fs_grammar.specs.Tokens.{Gives};
ghost use Rattle.fs_grammar.specs.Grammar.{at_start, at_reset, reading};

use crate::states::states;
use fs_grammar::fault::ReadError;
use fs_grammar::format::Format;
use fs_grammar::token::Token;
use fs_model::name::Name;
use fs_model::parts::{Parts, RawState};
use fs_text_parser::declarations::{declarations, reset};
use fs_text_parser::words::header;
use std::alloc::Global;

// The name of the reset state, after the word `reset`, and the states, up to the end of the text.
fn reset_and_states(
    alloc: Global,
    format: Format,
    tokens: &[Token],
) -> Result<(Name, Vec<RawState>), ReadError>
    ensures { (ds : List Declaration) (n : ℕ)
        → Gives (λ x. record { declarations = ds; reset_line = n; reset = x.0; states = map source_state_of x.1.items }) result
        (reading tokens.now (at_reset format ds n)) }
{
    let (reset, rest) = reset(alloc, tokens)?;
    let states = states(alloc, format, rest)?;
    Ok((reset, states))
}

/// The parts that the tokens spell. `Text` is the fault at the first token that can follow in no text or is
/// past the limit; `NoMemory` comes where the parts take more memory than there is.
pub fn parse(alloc: Global, tokens: &[Token]) -> Result<Parts, ReadError>
    ensures { Gives source_of result (reading tokens.now at_start) }
{
    let (format, rest) = header(tokens)?;
    let (decls, reset_line, rest) = declarations(alloc, format, rest)?;
    let (reset, states) = reset_and_states(alloc, format, rest)?;
    Ok(Parts {
        decls,
        reset_line,
        reset,
        states,
    })
}
