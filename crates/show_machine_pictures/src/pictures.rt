//! The picture of a machine.

ghost use Rattle.std.specs.Prelude.{◌≡◌, ◌++◌, ◌<◌, OnOk, IfOk, length};
ghost use Rattle.std.specs.List.{flat_map, range_with_len};
ghost use Rattle.show_machine_pictures.specs.Pictures.{state_lines, start_lines, picture_of};

use crate::branches::write_branches;
use crate::graphs::{Look, graph_text, write_edge, write_node};
use fs_ast::machine::Machine;
use fs_cut::cover::Point;
use fs_cut::path_text::point_text;
use fs_model::parts::StateId;
use std::alloc::{AllocError, Global};

// Adds a state and the edges of its branches.
fn write_state(
    alloc: Global,
    machine: &Machine,
    state: StateId,
    out: &mut Vec<u8>,
) -> Result<(), AllocError>
    requires { state.0 < length machine.now.states }
    ensures { OnOk result (out.new.items ≡ out.old.items ++ state_lines machine.now state.0) }
{
    let name = point_text(machine, Point::At(state));
    write_node(out, name, name, Look::Boxed)?;
    write_branches(alloc, machine, state, machine.branches(state), out)
}

// Adds the states in order.
fn write_states(alloc: Global, machine: &Machine, out: &mut Vec<u8>) -> Result<(), AllocError>
    ensures { OnOk result (out.new.items ≡ out.old.items
        ++ flat_map (state_lines machine.now) (range_with_len 0 (length machine.now.states))) }
{
    for state in 0..machine.state_count() {
        write_state(alloc, machine, StateId(state), out)?;
    }
    Ok(())
}

// Adds `start`, and the edge from it to the reset state.
fn write_start(machine: &Machine, out: &mut Vec<u8>) -> Result<(), AllocError>
    ensures { OnOk result (out.new.items ≡ out.old.items ++ start_lines machine.now) }
{
    let reset = point_text(machine, Point::At(machine.reset()));
    write_node(out, b"start", b"start", Look::Bare)?;
    write_edge(out, b"start", reset, b"", false)
}

/// The picture of a machine, as a graph in DOT: each state once, in order, and behind it each of its branches once, an edge whose
/// label has the number of the branch, its guard and its assignments. An edge leads from `start` to the reset state.
///
/// The one refusal is out of memory.
pub fn picture_of(alloc: Global, machine: &Machine) -> Result<Vec<u8>, AllocError>
    ensures { IfOk result (λ text. text.items ≡ picture_of machine.now) }
{
    let mut lines = Vec::new(alloc);
    write_start(machine, &mut lines)?;
    write_states(alloc, machine, &mut lines)?;
    graph_text(alloc, lines.as_slice())
}
