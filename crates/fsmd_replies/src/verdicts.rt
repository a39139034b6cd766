//! The lines of verdicts on certificates.

ghost use Rattle.std.specs.Prelude.{◌≡◌, ◌++◌, IfOk, codes, decimal, string_bytes};
ghost use Rattle.fs_pair.specs.Positions.{positions};
ghost use Rattle.fsmd_replies.specs.VerdictTexts.{yes_line, failure_line, undecided_line};

use crate::answer::Lines;
use crate::reason::reason_text;
use cert_model::reason::Reason;
use fs_ast::machine::Machine;
use fs_pair::positions::Pairing;
use std::alloc::{AllocError, Global};

/// The line of a certificate of which each obligation holds. The one refusal is out of memory.
pub fn yes_line(alloc: Global) -> Result<Lines, AllocError>
    ensures { IfOk result (λ line. line ≡ yes_line) }
{
    Ok(Lines::of(b"yes\n".to_vec(alloc)?))
}

// The line of an obligation that fails, up to the reason.
fn failure_before(alloc: Global, obligation: u32) -> Result<String, AllocError>
    ensures { IfOk result (λ text. string_bytes text ≡ codes "no: obligation " ++ (decimal obligation ++ codes ", ")) }
{
    format!(in alloc; "no: obligation {obligation}, ")
}

/// The line of an obligation that fails for a reason. The one refusal is out of memory.
pub fn failure_line(
    alloc: Global,
    a: &Machine,
    b: &Machine,
    p: &Pairing,
    obligation: u32,
    reason: Reason,
) -> Result<Lines, AllocError>
    requires { p.now ≡ positions a.now b.now }
    ensures { IfOk result (λ line. line ≡ failure_line a.now b.now obligation reason) }
{
    let mut bytes = failure_before(alloc, obligation)?.into_bytes();
    bytes.extend_from_slice(reason_text(alloc, a, b, p, reason)?.as_slice())?;
    bytes.extend_from_slice(b"\n")?;
    Ok(Lines::of(bytes))
}

/// The line of an obligation that has an event. The one refusal is out of memory.
pub fn undecided_line(alloc: Global, obligation: u32, event: &str) -> Result<Lines, AllocError>
    ensures { IfOk result (λ line. line ≡ undecided_line obligation event.now) }
{
    let text = format!(in alloc; "undecided: obligation {obligation}, {event}\n")?;
    Ok(Lines::of(text.into_bytes()))
}
