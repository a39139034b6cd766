//! The lines of branches that lose a local by a binding.

ghost use Rattle.std.specs.Prelude.{◌≡◌, ◌++◌, cond, codes, decimal, IfOk, string_bytes};
ghost use Rattle.fsmd_replies.specs.BindingTexts.{conflict_line};

use std::alloc::{AllocError, Global};

// The number of a branch, between the name of its state and those of its locals.
fn branch_text(alloc: Global, branch: u32) -> Result<String, AllocError>
    ensures { IfOk result (λ text. string_bytes text ≡ codes "." ++ (decimal branch ++ codes " writes ")) }
{
    format!(in alloc; ".{branch} writes ")
}

// What stands between the written local and the other.
fn joint(twice: bool) -> &'static str
    ensures { result.now ≡ cond twice (codes " and ") (codes " over ") }
{
    if twice { " and " } else { " over " }
}

// A line of these parts.
fn line_of(
    alloc: Global,
    state: &[u8],
    branch: &str,
    written: &[u8],
    joint: &str,
    other: &[u8],
) -> Result<Vec<u8>, AllocError>
    ensures { IfOk result
        (λ bytes. bytes.items ≡ codes "no: "
        ++ (state.now ++ (branch.now ++ (written.now ++ (joint.now ++ (other.now ++ codes "\n")))))) }
{
    let mut bytes = b"no: ".to_vec(alloc)?;
    bytes.extend_from_slice(state)?;
    bytes.extend_from_slice(branch.as_bytes())?;
    bytes.extend_from_slice(written)?;
    bytes.extend_from_slice(joint.as_bytes())?;
    bytes.extend_from_slice(other)?;
    bytes.extend_from_slice(b"\n")?;
    Ok(bytes)
}

/// The line of a branch that writes a local and loses another, or writes both, by the names of its state and of the two. The one
/// refusal is out of memory.
pub fn conflict_line(
    alloc: Global,
    state: &[u8],
    branch: u32,
    written: &[u8],
    twice: bool,
    other: &[u8],
) -> Result<Vec<u8>, AllocError>
    ensures { IfOk result (λ line. line.items ≡ conflict_line state.now branch written.now twice other.now) }
{
    let branch = branch_text(alloc, branch)?;
    line_of(alloc, state, branch.as_str(), written, joint(twice), other)
}
