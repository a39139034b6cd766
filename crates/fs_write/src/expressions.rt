//! The texts of expressions.

ghost use Rattle.std.specs.Prelude.{◌≡◌, ◌++◌, ◌^◌, ◌<ℤ◌, pos, IsTrue, OnOk};
ghost use Rattle.std.specs.Fmt.{signed_decimal};
ghost use Rattle.fs_model.specs.View.{named_expression};
ghost use Rattle.fs_write.specs.Canonical.{bracket_text, operator_text, infix_expression_text};
ghost use Rattle.fs_write.specs.Spellable.{is_spellable_expression};

use fs_model::name::Name;
use fs_model::parts::Expr;
use fs_model::well_formed::{is_product, is_sum};
use itoa::Buffer;
use std::alloc::AllocError;

/// A bracket where it is needed, and no bytes where it is not.
pub fn bracket(needed: bool, bracket: &'static [u8]) -> &'static [u8]
    ensures { result.now ≡ bracket_text needed bracket.now }
{
    if needed { bracket } else { b"" }
}

/// Writes two pieces of text.
pub fn write_two(out: &mut Vec<u8>, first: &[u8], second: &[u8]) -> Result<(), AllocError>
    ensures { OnOk result (out.new.items ≡ out.old.items ++ (first.now ++ second.now)) }
{
    out.extend_from_slice(first)?;
    out.extend_from_slice(second)
}

/// Writes three pieces of text.
pub fn write_three(
    out: &mut Vec<u8>,
    first: &[u8],
    second: &[u8],
    third: &[u8],
) -> Result<(), AllocError>
    ensures { OnOk result (out.new.items ≡ out.old.items ++ (first.now ++ (second.now ++ third.now))) }
{
    write_two(out, first, second)?;
    out.extend_from_slice(third)
}

fn write_number(out: &mut Vec<u8>, number: &i128) -> Result<(), AllocError>
    ensures text { OnOk result (out.new.items ≡ out.old.items ++ signed_decimal number.now) }
    ensures fits { number.now <ℤ pos (2 ^ 127) }
{
    let mut buffer = Buffer::new();
    out.extend_from_slice(buffer.format(*number).as_bytes())
}

// The operator between two operands, and no bytes where there is none.
fn operator(expr: &Expr<Name>) -> &'static [u8]
    ensures { result.now ≡ operator_text (named_expression expr.now) }
{
    match expr {
        Expr::Add(..) => b" + ",
        Expr::Sub(..) => b" - ",
        Expr::Mul(..) => b" * ",
        Expr::Div(..) => b" / ",
        Expr::Rem(..) => b" % ",
        _ => b"",
    }
}

/// Writes an expression.
pub fn write_expr(out: &mut Vec<u8>, expr: &Expr<Name>) -> Result<(), AllocError>
    ensures text { OnOk result (out.new.items ≡ out.old.items ++ infix_expression_text (named_expression expr.now)) }
    ensures words { OnOk result (IsTrue (is_spellable_expression (named_expression expr.now))) }
{
    match expr {
        Expr::Num(number) => write_number(out, number),
        Expr::Var(name) => out.extend_from_slice(name.bytes()),
        Expr::Read(name, index) => {
            write_two(out, name.bytes(), b"[")?;
            write_expr(out, index)?;
            out.extend_from_slice(b"]")
        }
        Expr::Add(a, b) | Expr::Sub(a, b) => {
            write_expr(out, a)?;
            write_two(out, operator(expr), bracket(is_sum(b), b"("))?;
            write_expr(out, b)?;
            out.extend_from_slice(bracket(is_sum(b), b")"))
        }
        Expr::Mul(a, b) | Expr::Div(a, b) | Expr::Rem(a, b) => {
            out.extend_from_slice(bracket(is_sum(a), b"("))?;
            write_expr(out, a)?;
            let needed = is_sum(b) || is_product(b);
            write_three(
                out,
                bracket(is_sum(a), b")"),
                operator(expr),
                bracket(needed, b"("),
            )?;
            write_expr(out, b)?;
            out.extend_from_slice(bracket(needed, b")"))
        }
        Expr::Neg(a) => {
            let needed = is_sum(a) || is_product(a);
            write_two(out, b"-", bracket(needed, b"("))?;
            write_expr(out, a)?;
            out.extend_from_slice(bracket(needed, b")"))
        }
    }
}
