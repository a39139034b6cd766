//! The lines of chains.

ghost use Rattle.std.specs.Prelude.{◌≡◌, IfOk, Some};
ghost use Rattle.fsmd_words.specs.AskedWords.{asked_of_ask};
ghost use Rattle.fsmd_replies.specs.ChainTexts.{chain_line, link_lines};

use crate::answer::{Answer, Lines};
use crate::reply::lines;
use fsmd_words::asking::Ask;
use std::alloc::{AllocError, Global};

/// The line of a chain of so many machines whose links hold. The one refusal is out of memory.
pub fn chain_line(alloc: Global, machines: u64) -> Result<Lines, AllocError>
    ensures { IfOk result (λ line. line ≡ chain_line machines) }
{
    let text = format!(in alloc; "yes: {machines} machines\n")?;
    Ok(Lines::of(text.into_bytes()))
}

/// The lines of an answer, told as those of the link of this number, from 1. The one refusal is out of memory.
pub fn link_lines(alloc: Global, ask: &Ask, link: u32, stop: &Answer) -> Result<Lines, AllocError>
    ensures { IfOk result (λ lines. lines ≡ link_lines (Some (asked_of_ask ask.now)) link stop.now) }
{
    let mut bytes = format!(in alloc; "link {link}: ")?.into_bytes();
    let mut stop_lines = lines(alloc, stop, ask)?;
    bytes.append(&mut stop_lines)?;
    Ok(Lines::of(bytes))
}
