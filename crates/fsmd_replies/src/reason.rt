//! Why an obligation fails, as text.

ghost use Rattle.std.specs.Prelude.{◌≡◌, ◌++◌, [], IfOk, Some, slice_get};
ghost use Rattle.term_text.specs.TermTexts.{symbol_text};
ghost use Rattle.fs_pair.specs.Partners.{variables_on};
ghost use Rattle.fs_pair.specs.Positions.{positions};
ghost use Rattle.fsmd_replies.specs.Reasons.{position_text, reason_text};

use crate::variables::variable_name;
use cert_model::reason::Reason;
use fs_ast::machine::Machine;
use fs_model::parts::{VarId, VarInfo};
use fs_pair::positions::{Pairing, Position};
use nf_terms::tree::{Pos, Side};
use std::alloc::{AllocError, Global};

/// A text and a name. The one refusal is out of memory.
pub(crate) fn with_name(alloc: Global, before: &str, name: &[u8]) -> Result<Vec<u8>, AllocError>
    ensures { IfOk result (λ bytes. bytes.items ≡ before.now ++ name.now) }
{
    let mut bytes = before.as_bytes().to_vec(alloc)?;
    bytes.extend_from_slice(name)?;
    Ok(bytes)
}

// What the names of a side begin with.
fn side_text(side: Side) -> &'static [u8]
    ensures { result.now ≡ symbol_text side [] }
{
    match side {
        Side::Left => b"L.",
        Side::Right => b"R.",
    }
}

// The variables of a side.
fn variables_on<'a>(side: Side, a: &'a Machine, b: &'a Machine) -> &'a [VarInfo]
    ensures { result.now ≡ variables_on side a.entry.now b.entry.now }
{
    match side {
        Side::Left => a.vars(),
        Side::Right => b.vars(),
    }
}

// A text and a position.
#[tactic(auto, using(crate::proofs::Names::symbol_parts))]
fn with_position(
    alloc: Global,
    before: &str,
    a: &Machine,
    b: &Machine,
    position: &Position,
) -> Result<Vec<u8>, AllocError>
    ensures { IfOk result (λ bytes. bytes.items ≡ before.now ++ position_text a.now b.now (Some position.now)) }
{
    let Pos { side, var } = position.pos;
    let mut bytes = with_name(alloc, before, side_text(side))?;
    bytes.extend_from_slice(variable_name(variables_on(side, a, b), VarId(var)))?;
    Ok(bytes)
}

// A text and the position at a place, if there is one.
fn with_place(
    alloc: Global,
    before: &str,
    a: &Machine,
    b: &Machine,
    p: &Pairing,
    place: u32,
) -> Result<Vec<u8>, AllocError>
    requires { p.now ≡ positions a.now b.now }
    ensures { IfOk result
        (λ bytes. bytes.items ≡ before.now ++ position_text a.now b.now (slice_get (positions a.now b.now) place)) }
{
    match p.positions().get(place as usize) {
        Some(position) => with_position(alloc, before, a, b, position),
        None => before.as_bytes().to_vec(alloc),
    }
}

/// Why an obligation of two machines' certificate fails, in words. The one refusal is out of memory.
pub fn reason_text(
    alloc: Global,
    a: &Machine,
    b: &Machine,
    p: &Pairing,
    reason: Reason,
) -> Result<Vec<u8>, AllocError>
    requires { p.now ≡ positions a.now b.now }
    ensures { IfOk result (λ bytes. bytes.items ≡ reason_text a.now b.now reason) }
{
    match reason {
        Reason::NoStartNode => b"no start node".to_vec(alloc),
        Reason::Mode => b"mode".to_vec(alloc),
        Reason::NoTarget => b"no target node".to_vec(alloc),
        Reason::Equation { place } => with_place(alloc, "equation ", a, b, p, place),
        Reason::Condition { index } => { Ok(format!(in alloc; "condition {index}")?.into_bytes()) }
        Reason::Rank => b"rank".to_vec(alloc),
        Reason::Output { var } => with_name(alloc, "output ", variable_name(a.vars(), VarId(var))),
    }
}
