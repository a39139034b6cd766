//! The edges of branches.

ghost use Rattle.std.specs.Prelude.{◌≡◌, ◌++◌, OnOk, IfOk, map, decimal};
ghost use Rattle.std.specs.List.{flat_map};
ghost use Rattle.fs_model.specs.View.{shared_literal_of, assignment_of, branch_of};
ghost use Rattle.show_machine_pictures.specs.Pictures.{after_and, way_text, assignment_line, branch_label, branch_edge};
ghost use Rattle.show_machine_pictures.specs.Pictures.{branch_edges};

use crate::expressions::{assignment_text, literal_text};
use crate::graphs::write_edge;
use fs_ast::machine::Machine;
use fs_cut::cover::Point;
use fs_cut::path_text::point_text;
use fs_model::parts::{Assign, Branch, Lit, StateId, VarId, VarInfo};
use itoa::Buffer;
use std::alloc::{AllocError, Global};
use std::rc::Rc;

fn write_number(out: &mut Vec<u8>, number: usize) -> Result<(), AllocError>
    ensures { OnOk result (out.new.items ≡ out.old.items ++ decimal number) }
{
    let mut buffer = Buffer::new();
    out.extend_from_slice(buffer.format(number).as_bytes())
}

// Adds the literals on a way behind the first one.
fn write_more_literals(
    alloc: Global,
    out: &mut Vec<u8>,
    variables: &[VarInfo],
    literals: &[Rc<Lit<VarId>>],
) -> Result<(), AllocError>
    ensures { OnOk result (out.new.items ≡ out.old.items
        ++ flat_map (after_and variables.now) (map shared_literal_of literals.now)) }
{
    for literal in literals {
        out.extend_from_slice(b" && ")?;
        out.extend_from_slice(literal_text(alloc, variables, literal)?.as_slice())?;
    }
    Ok(())
}

// Adds the literals on a way, or nothing where it has none.
fn write_way(
    alloc: Global,
    out: &mut Vec<u8>,
    variables: &[VarInfo],
    literals: &[Rc<Lit<VarId>>],
) -> Result<(), AllocError>
    ensures { OnOk result (out.new.items ≡ out.old.items ++ way_text variables.now (map shared_literal_of literals.now)) }
{
    match literals {
        [] => Ok(()),
        [first, rest @ ..] => {
            out.extend_from_slice(b" when ")?;
            out.extend_from_slice(literal_text(alloc, variables, first)?.as_slice())?;
            write_more_literals(alloc, out, variables, rest)
        }
    }
}

// Adds assignments, each on a line.
fn write_assign_lines(
    alloc: Global,
    out: &mut Vec<u8>,
    variables: &[VarInfo],
    assigns: &[Assign<VarId>],
) -> Result<(), AllocError>
    ensures { OnOk result (out.new.items ≡ out.old.items
        ++ flat_map (assignment_line variables.now) (map assignment_of assigns.now)) }
{
    for assign in assigns {
        out.extend_from_slice(assignment_text(alloc, variables, assign)?.as_slice())?;
        out.extend_from_slice(b"\n")?;
    }
    Ok(())
}

// The label of a branch.
#[tactic(auto, unfolding(crate::specs::Pictures::branch_label))]
fn branch_label(
    alloc: Global,
    variables: &[VarInfo],
    number: usize,
    branch: &Branch,
) -> Result<Vec<u8>, AllocError>
    ensures { IfOk result (λ label. label.items ≡ branch_label variables.now number (branch_of branch.now)) }
{
    let mut label = Vec::new(alloc);
    write_number(&mut label, number)?;
    write_way(alloc, &mut label, variables, &branch.lits)?;
    label.extend_from_slice(b"\n")?;
    write_assign_lines(alloc, &mut label, variables, branch.assigns.as_slice())?;
    Ok(label)
}

// Adds the edge of a branch of a state.
fn write_branch(
    alloc: Global,
    machine: &Machine,
    state: StateId,
    number: usize,
    branch: &Branch,
    out: &mut Vec<u8>,
) -> Result<(), AllocError>
    ensures { OnOk result (out.new.items ≡ out.old.items ++ branch_edge machine.now state.0 number (branch_of branch.now)) }
{
    let label = branch_label(alloc, machine.vars(), number, branch)?;
    let from = point_text(machine, Point::At(state));
    let to = point_text(machine, Point::At(branch.target));
    write_edge(out, from, to, label.as_slice(), false)
}

/// Adds the edges of branches of a state, which are numbered from 0. The one refusal is out of memory.
pub fn write_branches(
    alloc: Global,
    machine: &Machine,
    state: StateId,
    branches: &[Branch],
    out: &mut Vec<u8>,
) -> Result<(), AllocError>
    ensures { OnOk result (out.new.items ≡ out.old.items ++ branch_edges machine.now state.0 0 (map branch_of branches.now)) }
{
    for (number, branch) in branches.iter().enumerate() {
        write_branch(alloc, machine, state, number, branch, out)?;
    }
    Ok(())
}
