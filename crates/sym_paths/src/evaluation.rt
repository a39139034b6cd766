//! Expressions over a vector.

ghost use Rattle.std.specs.Prelude.{◌≡◌, map};
ghost use Rattle.fs_model.specs.View.{expression_of, literal_of, shared_literal_of};
ghost use Rattle.nf_terms.specs.Computed.{Answers};
ghost use Rattle.nf_arrays.specs.Writes.{read_at as read_value};
ghost use Rattle.nf_vectors.specs.Vectors.{array_form};
ghost use Rattle.nf_rel.specs.View.{literal_in};
ghost use Rattle.sym_paths.specs.ValuationStores.{at as position_of};
ghost use Rattle.sym_paths.specs.Sequences.{each};
ghost use Rattle.sym_paths.specs.Evaluation.{evaluate as evaluated, evaluate_literal as evaluated_literal, normal_operation};
ghost use Rattle.sym_paths.specs.View.{answer_in_data};

use fs_model::parts::{Expr, Lit, VarId};
use nf_arrays::division::{div, rem};
use nf_arrays::reads::read;
use nf_rel::literals::NLit;
use nf_rel::normalize::literal;
use nf_sums::sums::{add, mul, neg, number, sub};
use nf_terms::poly::Poly;
use nf_terms::stop::NfStop;
use nf_terms::tree::{Pos, Side};
use nf_vectors::vector::Vector;
use std::alloc::Global;
use std::rc::Rc;

// The position of a variable of a side.
pub(crate) fn at(side: Side, x: VarId) -> Pos
    ensures { result ≡ position_of side x.0 }
{
    Pos { side, var: x.0 }
}

// What the array of a position holds at an index.
fn read_at(alloc: Global, v: &Vector, position: &Pos, index: &Poly) -> Result<Poly, NfStop>
    ensures { Answers result (read_value (array_form v.now position.now) index.now) }
{
    let array = v.array(alloc, position)?;
    read(alloc, &array, index)
}

// What the operator of an expression makes of two numbers. It is 0 where the expression has not two operands.
fn combine(alloc: Global, e: &Expr<VarId>, left: &Poly, right: &Poly) -> Result<Poly, NfStop>
    ensures { Answers result (normal_operation (expression_of e.now) left.now right.now) }
{
    match e {
        Expr::Add(..) => add(alloc, left, right),
        Expr::Sub(..) => sub(alloc, left, right),
        Expr::Mul(..) => mul(alloc, left, right),
        Expr::Div(..) => div(alloc, left, right),
        Expr::Rem(..) => rem(alloc, left, right),
        Expr::Num(_) | Expr::Var(_) | Expr::Read(..) | Expr::Neg(_) => number(alloc, &0),
    }
}

/// The normal form of an expression of a side's machine, with the vector's forms in place of its variables.
///
/// `Wide` and `Large` come exactly at the first operation that is not narrow, or narrow and not small, in this order: the left
/// operand, the right operand, the operation; of a read the index and then the read. `NoMemory`: out of memory.
pub fn evaluate(alloc: Global, side: Side, v: &Vector, e: &Expr<VarId>) -> Result<Poly, NfStop>
    ensures { Answers result (evaluated side v.now (expression_of e.now)) }
{
    match e {
        Expr::Num(n) => number(alloc, n),
        Expr::Var(x) => Ok(v.number(alloc, &at(side, *x))?),
        Expr::Read(x, i) => {
            let index = evaluate(alloc, side, v, i)?;
            read_at(alloc, v, &at(side, *x), &index)
        }
        Expr::Add(a, b) | Expr::Sub(a, b) | Expr::Mul(a, b) | Expr::Div(a, b) | Expr::Rem(a, b) => {
            let left = evaluate(alloc, side, v, a)?;
            let right = evaluate(alloc, side, v, b)?;
            combine(alloc, e, &left, &right)
        }
        Expr::Neg(a) => {
            let value = evaluate(alloc, side, v, a)?;
            Ok(neg(alloc, &value)?)
        }
    }
}

// The normal form of a literal over a vector.
fn evaluate_literal(alloc: Global, side: Side, v: &Vector, l: &Lit<VarId>) -> Result<NLit, NfStop>
    ensures { Answers (answer_in_data literal_in result) (evaluated_literal side v.now (literal_of l.now)) }
{
    let left = evaluate(alloc, side, v, &l.left)?;
    let right = evaluate(alloc, side, v, &l.right)?;
    literal(alloc, l.rel, &left, &right)
}

/// The normal forms of literals over a vector, in order.
///
/// `Wide` and `Large` come exactly at the first operation that is not narrow, or narrow and not small. `NoMemory`: out of memory.
pub(crate) fn evaluate_literals(
    alloc: Global,
    side: Side,
    v: &Vector,
    literals: &[Rc<Lit<VarId>>],
) -> Result<Vec<NLit>, NfStop>
    ensures { Answers (answer_in_data (λ ls. map literal_in ls.items) result)
        (each (λ l. evaluated_literal side v.now l) (map shared_literal_of literals.now)) }
{
    let mut out = Vec::new(alloc);
    for literal in literals {
        out.push(evaluate_literal(alloc, side, v, literal)?)?;
    }
    Ok(out)
}
