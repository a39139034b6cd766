//! Assignments over a vector: all are evaluated over the vector before, and then done in order.

ghost use Rattle.std.specs.Prelude.{map};
ghost use Rattle.fs_model.specs.View.{assignment_of};
ghost use Rattle.nf_terms.specs.Computed.{Answers, Done};
ghost use Rattle.nf_vectors.specs.Vectors.{with_form};
ghost use Rattle.sym_paths.specs.Sequences.{each};
ghost use Rattle.sym_paths.specs.Evaluation.{evaluate_assignment as evaluated_assignment, change as changed};
ghost use Rattle.sym_paths.specs.Evaluation.{change_all as changed_all, act_over as acted, PutAt, PushTo};
ghost use Rattle.sym_paths.specs.View.{answer_in_data, change_in};

use crate::evaluation::{at, evaluate};
use fs_model::parts::{Assign, VarId};
use nf_arrays::pushes::push;
use nf_arrays::writes::write;
use nf_terms::form::Nf;
use nf_terms::poly::Poly;
use nf_terms::stop::NfStop;
use nf_terms::tree::{Pos, Side};
use nf_vectors::vector::Vector;
use std::alloc::Global;

// An assignment with its parts evaluated.
#[derive(Drop)]
pub(crate) enum Change {
    Set(VarId, Poly),
    Put {
        array: VarId,
        index: Poly,
        value: Poly,
    },
    Push(VarId, Poly),
}

// An assignment with its parts evaluated over a vector.
fn evaluate_assignment(
    alloc: Global,
    side: Side,
    v: &Vector,
    assignment: &Assign<VarId>,
) -> Result<Change, NfStop>
    ensures { Answers (answer_in_data change_in result) (evaluated_assignment side v.now (assignment_of assignment.now)) }
{
    match assignment {
        Assign::Set(x, e) => Ok(Change::Set(*x, evaluate(alloc, side, v, e)?)),
        Assign::Put(x, i, e) => {
            let index = evaluate(alloc, side, v, i)?;
            let value = evaluate(alloc, side, v, e)?;
            Ok(Change::Put {
                array: *x,
                index,
                value,
            })
        }
        Assign::Emit(x, e) => Ok(Change::Push(*x, evaluate(alloc, side, v, e)?)),
    }
}

// Assignments with their parts evaluated over a vector, in order.
fn evaluate_assignments(
    alloc: Global,
    side: Side,
    v: &Vector,
    assignments: &[Assign<VarId>],
) -> Result<Vec<Change>, NfStop>
    ensures { Answers (answer_in_data (λ cs. map change_in cs.items) result)
        (each (λ a. evaluated_assignment side v.now a) (map assignment_of assignments.now)) }
{
    let mut out = Vec::new(alloc);
    for assignment in assignments {
        out.push(evaluate_assignment(alloc, side, v, assignment)?)?;
    }
    Ok(out)
}

// Puts a form at a position of a vector.
fn put_form(v: &mut Vector, position: Pos, form: Nf) -> Result<(), NfStop>
    ensures { Answers (answer_in_data (λ _. v.new) result) (Done (with_form position form v.old)) }
{
    Ok(v.put(position, form)?)
}

// Writes an array of a vector.
fn put(
    alloc: Global,
    side: Side,
    x: VarId,
    index: &Poly,
    value: &Poly,
    v: &mut Vector,
) -> Result<(), NfStop>
    ensures { Answers (answer_in_data (λ _. v.new) result) (changed side (PutAt x.0 index.now value.now) v.old) }
{
    let array = v.array(alloc, &at(side, x))?;
    let written = write(alloc, &array, index, value)?;
    put_form(v, at(side, x), Nf::Arr(written))
}

// Adds a number to a list of a vector.
fn emit(alloc: Global, side: Side, x: VarId, value: &Poly, v: &mut Vector) -> Result<(), NfStop>
    ensures { Answers (answer_in_data (λ _. v.new) result) (changed side (PushTo x.0 value.now) v.old) }
{
    let list = v.list(alloc, &at(side, x))?;
    let pushed = push(alloc, &list, value)?;
    put_form(v, at(side, x), Nf::Seq(pushed))
}

// Changes a vector.
fn apply(alloc: Global, side: Side, c: Change, v: &mut Vector) -> Result<(), NfStop>
    ensures { Answers (answer_in_data (λ _. v.new) result) (changed side (change_in c) v.old) }
{
    match c {
        Change::Set(x, value) => put_form(v, at(side, x), Nf::Num(value)),
        Change::Put {
            array,
            index,
            value,
        } => put(alloc, side, array, &index, &value, v),
        Change::Push(x, value) => emit(alloc, side, x, &value, v),
    }
}

// Changes a vector, in order.
fn apply_all(alloc: Global, side: Side, changes: Vec<Change>, v: &mut Vector) -> Result<(), NfStop>
    ensures { Answers (answer_in_data (λ _. v.new) result) (changed_all side (map change_in changes.items) v.old) }
{
    for c in changes {
        apply(alloc, side, c, v)?;
    }
    Ok(())
}

// The assignments of a transition over a vector, which then becomes the vector after them.
pub(crate) fn act_over(
    alloc: Global,
    side: Side,
    assignments: &[Assign<VarId>],
    v: &mut Vector,
) -> Result<(), NfStop>
    ensures { Answers (answer_in_data (λ _. v.new) result) (acted side (map assignment_of assignments.now) v.old) }
{
    let changes = evaluate_assignments(alloc, side, v, assignments)?;
    apply_all(alloc, side, changes, v)
}
