//! The canonical text of the parts of a machine.
//!
//! The text has a line for the head with the format, each declaration, the reset state, each state and each
//! transition, and parentheses and braces only where leaving them out would change the parts. The
//! definitions stand in `specs/`.
//!
//! Promises: `write_parts`: the canonical text, and that it reads as the parts; alone or behind comment lines it spells
//! their machine and keeps the rules where they do.
//!
//! Rules: `specs/Canonical`, `specs/CanonicalLines`, `src/laws`, `specs/CommentLines`, `src/reading_laws`.
//!
//! Words:
//! - canonical text: the one text that `fmt` writes of a machine
//! - comment line: a comment on a line of its own
#![tactic(auto)]

ghost use Rattle.std.specs.Prelude.{◌≡◌, IsTrue, IfOk, Ok};
ghost use Rattle.fs_model.specs.View.{source_of};
ghost use Rattle.fs_model.specs.WellFormed.{is_well_formed};
ghost use Rattle.fs_grammar.specs.Grammar.{at_start, reading};
ghost use Rattle.fs_lex.specs.Scan.{tokens_of};
ghost use Rattle.fs_write.specs.Canonical.{canonical};
ghost use Rattle.fs_write.specs.CanonicalLines.{with_canonical_lines};

mod expressions;
mod formats;
mod guards;
pub mod laws;
pub mod reading_laws;
mod states;

use fs_model::parts::Parts;
use std::alloc::Global;

/// Out of memory.
#[derive(Clone, Copy)]
pub struct NoMemory;

/// The canonical text of parts that a text can spell, in format 2 exactly where they declare ports or
/// emit. Reading it gives the parts back, each with its line in this text. Takes time and memory in proportion to the text.
pub fn write_parts(alloc: Global, parts: &Parts) -> Result<Vec<u8>, NoMemory>
    requires { IsTrue (is_well_formed (source_of parts.now)) }
    ensures text { IfOk result (λ bytes. bytes.items ≡ canonical (source_of parts.now)) }
    ensures reads_back { IfOk result
        (λ bytes. reading (tokens_of bytes.items) at_start ≡ Ok (with_canonical_lines (source_of parts.now))) }
{
    let mut out = Vec::new(alloc);
    match states::write_source(&mut out, parts) {
        Ok(()) => Ok(out),
        Err(_) => Err(NoMemory),
    }
}
