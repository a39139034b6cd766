//! The texts of expressions, literals and assignments over the variables of a machine.

ghost use Rattle.std.specs.Prelude.{◌≡◌, ◌++◌, ℕ, List, IfOk, codes};
ghost use Rattle.std.specs.Fmt.{signed_decimal};
ghost use Rattle.fs_model.specs.View.{expression_of, literal_of, assignment_of};
ghost use Rattle.fs_model.specs.Renamed.{expression_over};
ghost use Rattle.fs_model.specs.WellFormed.{is_sum, is_product};
ghost use Rattle.fs_model.specs.VariableNames.{variable_name};
ghost use Rattle.fs_write.specs.Canonical.{in_parens, operator_text, relation_text, infix_expression_text};
ghost use Rattle.show_machine_pictures.specs.Pictures.{branch_literal_text, named_assignment_text};

use fs_model::parts::{Assign, Expr, Lit, Rel, VarId, VarInfo};
use itoa::Buffer;
use std::alloc::{AllocError, Global};

// The name of a variable. Takes no memory.
fn variable_name(variables: &[VarInfo], x: VarId) -> &[u8]
    ensures { result.now ≡ variable_name variables.now x.0 }
{
    match variables.get(x.0 as usize) {
        Some(variable) => variable.name.bytes(),
        None => &[],
    }
}

// Whether an expression is a sum or a difference.
fn is_sum(expr: &Expr<VarId>) -> bool
    ensures { result ≡ is_sum (expression_of expr.now) }
{
    matches!(expr, Expr::Add(..) | Expr::Sub(..))
}

// Whether an expression is a product, a quotient or a remainder.
fn is_product(expr: &Expr<VarId>) -> bool
    ensures { result ≡ is_product (expression_of expr.now) }
{
    matches!(expr, Expr::Mul(..) | Expr::Div(..) | Expr::Rem(..))
}

// A text, in parentheses where they are needed.
fn in_parens(alloc: Global, needed: bool, text: &[u8]) -> Result<Vec<u8>, AllocError>
    ensures { IfOk result (λ whole. whole.items ≡ in_parens needed text.now) }
{
    let mut whole = Vec::new(alloc);
    if needed {
        whole.extend_from_slice(b"(")?;
    }
    whole.extend_from_slice(text)?;
    if needed {
        whole.extend_from_slice(b")")?;
    }
    Ok(whole)
}

// A text behind others.
fn concatenate(
    alloc: Global,
    front: &[u8],
    middle: &[u8],
    back: &[u8],
) -> Result<Vec<u8>, AllocError>
    ensures { IfOk result (λ whole. whole.items ≡ front.now ++ (middle.now ++ back.now)) }
{
    let mut whole = front.to_vec(alloc)?;
    whole.extend_from_slice(middle)?;
    whole.extend_from_slice(back)?;
    Ok(whole)
}

fn number_text(alloc: Global, number: &i128) -> Result<Vec<u8>, AllocError>
    ensures { IfOk result (λ text. text.items ≡ signed_decimal number.now) }
{
    let mut buffer = Buffer::new();
    buffer.format(*number).as_bytes().to_vec(alloc)
}

fn negative_text(alloc: Global, text: &[u8]) -> Result<Vec<u8>, AllocError>
    ensures { IfOk result (λ whole. whole.items ≡ codes "-" ++ text.now) }
{
    let mut whole = b"-".to_vec(alloc)?;
    whole.extend_from_slice(text)?;
    Ok(whole)
}

// The text of an element of an array.
fn element_text(alloc: Global, array: &[u8], index: &[u8]) -> Result<Vec<u8>, AllocError>
    ensures { IfOk result (λ text. text.items ≡ array.now ++ (codes "[" ++ (index.now ++ codes "]"))) }
{
    let mut text = array.to_vec(alloc)?;
    text.extend_from_slice(b"[")?;
    text.extend_from_slice(index)?;
    text.extend_from_slice(b"]")?;
    Ok(text)
}

// The operator between two operands, and no bytes where there is none.
fn operator(expr: &Expr<VarId>) -> &'static [u8]
    ensures { (name : ℕ → List ℕ) → result.now ≡ operator_text (expression_over name (expression_of expr.now)) }
{
    match expr {
        Expr::Add(..) => b" + ",
        Expr::Sub(..) => b" - ",
        Expr::Mul(..) => b" * ",
        Expr::Div(..) => b" / ",
        Expr::Rem(..) => b" % ",
        _ => b"",
    }
}

// The text of an expression.
fn expression_text(
    alloc: Global,
    variables: &[VarInfo],
    expr: &Expr<VarId>,
) -> Result<Vec<u8>, AllocError>
    ensures { IfOk result (λ text. text.items
        ≡ infix_expression_text (expression_over (variable_name variables.now) (expression_of expr.now))) }
{
    match expr {
        Expr::Num(number) => number_text(alloc, number),
        Expr::Var(x) => variable_name(variables, *x).to_vec(alloc),
        Expr::Read(x, index) => {
            let index = expression_text(alloc, variables, index)?;
            element_text(alloc, variable_name(variables, *x), index.as_slice())
        }
        Expr::Add(a, b) | Expr::Sub(a, b) => {
            let left = expression_text(alloc, variables, a)?;
            let right = expression_text(alloc, variables, b)?;
            let right = in_parens(alloc, is_sum(b), right.as_slice())?;
            concatenate(alloc, left.as_slice(), operator(expr), right.as_slice())
        }
        Expr::Mul(a, b) | Expr::Div(a, b) | Expr::Rem(a, b) => {
            let left = expression_text(alloc, variables, a)?;
            let left = in_parens(alloc, is_sum(a), left.as_slice())?;
            let right = expression_text(alloc, variables, b)?;
            let right = in_parens(alloc, is_sum(b) || is_product(b), right.as_slice())?;
            concatenate(alloc, left.as_slice(), operator(expr), right.as_slice())
        }
        Expr::Neg(a) => {
            let text = expression_text(alloc, variables, a)?;
            let text = in_parens(alloc, is_sum(a) || is_product(a), text.as_slice())?;
            negative_text(alloc, text.as_slice())
        }
    }
}

fn relation(rel: Rel) -> &'static [u8]
    ensures { result.now ≡ relation_text rel }
{
    match rel {
        Rel::Eq => b" == ",
        Rel::Ne => b" != ",
        Rel::Lt => b" < ",
        Rel::Le => b" <= ",
        Rel::Gt => b" > ",
        Rel::Ge => b" >= ",
    }
}

/// The text of a literal. The one refusal is out of memory.
#[tactic(auto, unfolding(crate::specs::Pictures::branch_literal_text))]
pub fn literal_text(
    alloc: Global,
    variables: &[VarInfo],
    literal: &Lit<VarId>,
) -> Result<Vec<u8>, AllocError>
    ensures { IfOk result (λ text. text.items ≡ branch_literal_text variables.now (literal_of literal.now)) }
{
    let left = expression_text(alloc, variables, &literal.left)?;
    let right = expression_text(alloc, variables, &literal.right)?;
    concatenate(
        alloc,
        left.as_slice(),
        relation(literal.rel),
        right.as_slice(),
    )
}

// The text of a write to an array.
fn write_text(
    alloc: Global,
    array: &[u8],
    index: &[u8],
    value: &[u8],
) -> Result<Vec<u8>, AllocError>
    ensures { IfOk result (λ text. text.items ≡ array.now ++ (codes "[" ++ (index.now ++ (codes "] = " ++ value.now)))) }
{
    let mut text = array.to_vec(alloc)?;
    text.extend_from_slice(b"[")?;
    text.extend_from_slice(index)?;
    text.extend_from_slice(b"] = ")?;
    text.extend_from_slice(value)?;
    Ok(text)
}

// The text of an emit to a port.
fn emit_text(alloc: Global, port: &[u8], value: &[u8]) -> Result<Vec<u8>, AllocError>
    ensures { IfOk result (λ text. text.items ≡ codes "emit " ++ (port.now ++ (codes " " ++ value.now))) }
{
    let mut text = b"emit ".to_vec(alloc)?;
    text.extend_from_slice(port)?;
    text.extend_from_slice(b" ")?;
    text.extend_from_slice(value)?;
    Ok(text)
}

/// The text of an assignment. The one refusal is out of memory.
#[tactic(auto, unfolding(crate::specs::Pictures::named_assignment_text))]
pub fn assignment_text(
    alloc: Global,
    variables: &[VarInfo],
    assign: &Assign<VarId>,
) -> Result<Vec<u8>, AllocError>
    ensures { IfOk result (λ text. text.items ≡ named_assignment_text variables.now (assignment_of assign.now)) }
{
    match assign {
        Assign::Set(x, value) => {
            let value = expression_text(alloc, variables, value)?;
            concatenate(
                alloc,
                variable_name(variables, *x),
                b" = ",
                value.as_slice(),
            )
        }
        Assign::Put(x, index, value) => {
            let index = expression_text(alloc, variables, index)?;
            let value = expression_text(alloc, variables, value)?;
            write_text(
                alloc,
                variable_name(variables, *x),
                index.as_slice(),
                value.as_slice(),
            )
        }
        Assign::Emit(x, value) => {
            let value = expression_text(alloc, variables, value)?;
            emit_text(alloc, variable_name(variables, *x), value.as_slice())
        }
    }
}
