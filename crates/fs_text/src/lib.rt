//! Machine texts, from their bytes to their parts.
//!
//! Promises: `read_parts`: the parts that bytes spell, or their first fault.
#![tactic(auto)]

ghost use Rattle.std.specs.Prelude.{◌≤◌, length, IsTrue, IfOk};
ghost use Rattle.std.specs.Result.{IfErr};
ghost use Rattle.fs_model.specs.Limits.{most_text_bytes};
ghost use Rattle.fs_model.specs.View.{source_of};
ghost use Rattle.fs_model.specs.WellFormed.{is_well_formed};
ghost use Rattle.fs_grammar.specs.Tokens.{Gives};
ghost use Rattle.fs_grammar.specs.Faults.{Spells, StopsAt};
ghost use Rattle.fs_lex.specs.Scan.{tokens_of};
ghost use Rattle.fs_lex.specs.Tokenization.{IsTokenIn};
ghost use Rattle.fs_lex.specs.Limit.{SpellWithin, StopWithin};
ghost use Rattle.fs_lex.specs.MachineTexts.{TextSpells, TextStops};
ghost use Rattle.fs_text.specs.SourceOfText.{source_spelled, IfText};

mod parse;
mod states;

use crate::parse::parse;
use fs_grammar::fault::ReadError;
use fs_lex::tokens;
use fs_model::parts::Parts;
use std::alloc::Global;

/// The parts that the bytes spell, which are well formed; at most 1,048,576 bytes are read. `Text` comes
/// exactly where they spell none: at the first token that is faulty or can follow in no file, with its line
/// and column and what is wrong with it; `Operators` is at the first operator or opening bracket that has
/// 128 of them before it in the one guard or assignment that it stands in. `NoMemory`: out of memory.
pub fn read_parts(alloc: Global, bytes: &[u8]) -> Result<Parts, ReadError>
    requires { length bytes.now ≤ most_text_bytes }
    ensures read { Gives source_of result (source_spelled bytes.now) }
    ensures spells { IfOk result (λ p. Spells (source_of p) (tokens_of bytes.now)) }
    ensures well_formed { IfOk result (λ p. IsTrue (is_well_formed (source_of p))) }
    ensures fault { IfErr result (λ e. IfText e (StopsAt (tokens_of bytes.now))) }
    ensures text { IfOk result (λ p. TextSpells bytes.now (source_of p)) }
    ensures faulty { IfErr result (λ e. IfText e (TextStops bytes.now)) }
    ensures within { IfOk result (λ p. SpellWithin (tokens_of bytes.now) (source_of p)) }
    ensures stops { IfErr result (λ e. IfText e (λ f. (s : StopWithin (tokens_of bytes.now) f) × IsTokenIn bytes.now s.token)) }
{
    let tokens = tokens(alloc, bytes)?;
    parse(alloc, &tokens)
}
