//! The texts of guards.

ghost use Rattle.std.specs.Prelude.{◌≡◌, ◌++◌, IsTrue, OnOk, option_map};
ghost use Rattle.fs_model.specs.View.{named_guard};
ghost use Rattle.fs_write.specs.Canonical.{relation_text, guard_text, when_text};
ghost use Rattle.fs_write.specs.Spellable.{is_spellable_guard, is_spellable_condition};

use crate::expressions::{bracket, write_expr, write_three, write_two};
use fs_model::parts::{Guard, Rel};
use fs_model::well_formed::{is_and, is_or};
use std::alloc::AllocError;

fn relation(rel: Rel) -> &'static [u8]
    ensures { result.now ≡ relation_text rel }
{
    match rel {
        Rel::Eq => b" == ",
        Rel::Ne => b" != ",
        Rel::Lt => b" < ",
        Rel::Le => b" <= ",
        Rel::Gt => b" > ",
        Rel::Ge => b" >= ",
    }
}

// Writes a guard.
fn write_guard(out: &mut Vec<u8>, guard: &Guard) -> Result<(), AllocError>
    ensures text { OnOk result (out.new.items ≡ out.old.items ++ guard_text (named_guard guard.now)) }
    ensures words { OnOk result (IsTrue (is_spellable_guard (named_guard guard.now))) }
{
    match guard {
        Guard::Lit(literal) => {
            write_expr(out, &literal.left)?;
            out.extend_from_slice(relation(literal.rel))?;
            write_expr(out, &literal.right)
        }
        Guard::Not(a) => {
            let needed = is_and(a) || is_or(a);
            write_two(out, b"!", bracket(needed, b"{"))?;
            write_guard(out, a)?;
            out.extend_from_slice(bracket(needed, b"}"))
        }
        Guard::And(a, b) => {
            out.extend_from_slice(bracket(is_or(a), b"{"))?;
            write_guard(out, a)?;
            let needed = is_and(b) || is_or(b);
            write_three(out, bracket(is_or(a), b"}"), b" && ", bracket(needed, b"{"))?;
            write_guard(out, b)?;
            out.extend_from_slice(bracket(needed, b"}"))
        }
        Guard::Or(a, b) => {
            write_guard(out, a)?;
            write_two(out, b" || ", bracket(is_or(b), b"{"))?;
            write_guard(out, b)?;
            out.extend_from_slice(bracket(is_or(b), b"}"))
        }
    }
}

/// Writes what stands before the target of a transition: its guard, or nothing.
pub fn write_condition(out: &mut Vec<u8>, guard: &Option<Guard>) -> Result<(), AllocError>
    ensures text { OnOk result (out.new.items ≡ out.old.items ++ when_text (option_map named_guard guard.now)) }
    ensures words { OnOk result (IsTrue (is_spellable_condition (option_map named_guard guard.now))) }
{
    let Some(guard) = guard else {
        return Ok(());
    };
    out.extend_from_slice(b"when ")?;
    write_guard(out, guard)?;
    out.extend_from_slice(b" ")
}
