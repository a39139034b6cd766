//! What moves and outputs ask.

ghost use Rattle.std.specs.Prelude.{◌≡◌, ◌≤◌, ◌++◌, ◌∷◌, [], IfOk, OnOk, length, map, option_map};
ghost use Rattle.fs_cut.specs.View.{path_of};
ghost use Rattle.cert_model.specs.View.{node_of};
ghost use Rattle.search_tables.specs.SearchTables.{machines};
ghost use Rattle.show_certificate_lines.specs.Demands.{side_moved, move_demand, output_demand, output_demands, left_demands};
ghost use Rattle.show_certificate_lines.specs.Demands.{right_demands, both_demands};

use crate::cases::write_case;
use crate::move_cases::write_move_case;
use cert_model::cert::Node;
use fs_ast::machine::Machine;
use fs_cut::cover::Path;
use fs_cut::path_text::write_named_path;
use fs_model::parts::VarInfo;
use nf_terms::stop::NoMemory;
use show_fact_text::points::{end_of, write_points};
use std::alloc::Global;

// Adds the path of a side, or `-` where it stays.
fn write_side(
    alloc: Global,
    out: &mut Vec<u8>,
    machine: &Machine,
    path: Option<&Path>,
) -> Result<(), NoMemory>
    ensures { OnOk result (out.new.items ≡ out.old.items ++ side_moved machine.now (option_map (λ p. path_of p.now) path.entry)) }
{
    match path {
        Some(path) => write_named_path(alloc, machine, path, out)?,
        None => out.extend_from_slice(b"-")?,
    }
    Ok(())
}

// Adds what a move from a node asks.
#[tactic(auto, unfolding(crate::specs::Demands::move_demand))]
fn write_move_demand(
    alloc: Global,
    out: &mut Vec<u8>,
    a: &Machine,
    b: &Machine,
    nodes: &[Node],
    node: &Node,
    left: Option<&Path>,
    right: Option<&Path>,
) -> Result<(), NoMemory>
    ensures { OnOk result (out.new.items ≡ out.old.items
        ++ move_demand (machines a.now b.now) (map node_of nodes.now) (node_of node.now)
        (option_map (λ p. path_of p.now) left.entry) (option_map (λ p. path_of p.now) right.entry)) }
{
    write_side(alloc, out, a, left)?;
    out.extend_from_slice(b" | ")?;
    write_side(alloc, out, b, right)?;
    out.extend_from_slice(b": the fact at ")?;
    write_points(
        out,
        a,
        b,
        end_of(node.left, left),
        end_of(node.right, right),
    )?;
    write_move_case(alloc, out, a, b, nodes, node, left, right)?;
    out.extend_from_slice(b"\n")?;
    Ok(())
}

// What a move from a node asks.
fn move_demand(
    alloc: Global,
    a: &Machine,
    b: &Machine,
    nodes: &[Node],
    node: &Node,
    left: Option<&Path>,
    right: Option<&Path>,
) -> Result<Vec<u8>, NoMemory>
    ensures { IfOk result (λ text. text.items
        ≡ move_demand (machines a.now b.now) (map node_of nodes.now) (node_of node.now)
        (option_map (λ p. path_of p.now) left.entry) (option_map (λ p. path_of p.now) right.entry)) }
{
    let mut text = Vec::new(alloc);
    write_move_demand(alloc, &mut text, a, b, nodes, node, left, right)?;
    Ok(text)
}

/// Adds what the moves by each right path ask, beside a left path or alone. The one refusal is out of memory.
pub fn push_rights(
    alloc: Global,
    out: &mut Vec<Vec<u8>>,
    a: &Machine,
    b: &Machine,
    nodes: &[Node],
    node: &Node,
    left: Option<&Path>,
    rights: &[Path],
) -> Result<(), NoMemory>
    ensures { OnOk result (map (λ t. t.items) out.new.items ≡ map (λ t. t.items) out.old.items
        ++ right_demands (machines a.now b.now) (map node_of nodes.now) (node_of node.now)
        (option_map (λ p. path_of p.now) left.entry) (map path_of rights.now)) }
{
    for right in rights {
        out.push(move_demand(alloc, a, b, nodes, node, left, Some(right))?)?;
    }
    Ok(())
}

/// Adds what the moves by each left path alone ask. The one refusal is out of memory.
pub fn push_lefts(
    alloc: Global,
    out: &mut Vec<Vec<u8>>,
    a: &Machine,
    b: &Machine,
    nodes: &[Node],
    node: &Node,
    lefts: &[Path],
) -> Result<(), NoMemory>
    ensures { OnOk result (map (λ t. t.items) out.new.items ≡ map (λ t. t.items) out.old.items
        ++ left_demands (machines a.now b.now) (map node_of nodes.now) (node_of node.now) (map path_of lefts.now)) }
{
    for left in lefts {
        out.push(move_demand(alloc, a, b, nodes, node, Some(left), None)?)?;
    }
    Ok(())
}

/// Adds what the moves by each left path with each right one ask. The one refusal is out of memory.
pub fn push_both(
    alloc: Global,
    out: &mut Vec<Vec<u8>>,
    a: &Machine,
    b: &Machine,
    nodes: &[Node],
    node: &Node,
    lefts: &[Path],
    rights: &[Path],
) -> Result<(), NoMemory>
    ensures { OnOk result (map (λ t. t.items) out.new.items ≡ map (λ t. t.items) out.old.items
        ++ both_demands (machines a.now b.now) (map node_of nodes.now) (node_of node.now)
        (map path_of rights.now) (map path_of lefts.now)) }
{
    for left in lefts {
        push_rights(alloc, out, a, b, nodes, node, Some(left), rights)?;
    }
    Ok(())
}

// What an output asks of a node.
#[tactic(auto, unfolding(crate::specs::Demands::output_demand))]
fn output_demand(
    alloc: Global,
    a: &Machine,
    b: &Machine,
    nodes: &[Node],
    place: usize,
    node: &Node,
    variable: &VarInfo,
) -> Result<Vec<u8>, NoMemory>
    requires { place ≤ length nodes.now }
    ensures { IfOk result (λ text. text.items
        ≡ output_demand (machines a.now b.now) (map node_of nodes.now) place (node_of node.now) variable.now) }
{
    let mut text = Vec::new(alloc);
    write_points(&mut text, a, b, node.left, node.right)?;
    write_case(alloc, &mut text, nodes, place, node)?;
    text.extend_from_slice(b": output ")?;
    text.extend_from_slice(variable.name.bytes())?;
    text.extend_from_slice(b"\n")?;
    Ok(text)
}

// Adds what a variable asks of a node, where it is an output.
fn push_output(
    alloc: Global,
    out: &mut Vec<Vec<u8>>,
    a: &Machine,
    b: &Machine,
    nodes: &[Node],
    place: usize,
    node: &Node,
    variable: &VarInfo,
) -> Result<(), NoMemory>
    requires { place ≤ length nodes.now }
    ensures { OnOk result (map (λ t. t.items) out.new.items ≡ map (λ t. t.items) out.old.items
        ++ output_demands (machines a.now b.now) (map node_of nodes.now) place (node_of node.now) (variable.now ∷ [])) }
{
    if variable.role.is_output() {
        out.push(output_demand(alloc, a, b, nodes, place, node, variable)?)?;
    }
    Ok(())
}

/// Adds what the outputs among variables ask of a node. The one refusal is out of memory.
pub fn push_outputs(
    alloc: Global,
    out: &mut Vec<Vec<u8>>,
    a: &Machine,
    b: &Machine,
    nodes: &[Node],
    place: usize,
    node: &Node,
    variables: &[VarInfo],
) -> Result<(), NoMemory>
    requires { place ≤ length nodes.now }
    ensures { OnOk result (map (λ t. t.items) out.new.items ≡ map (λ t. t.items) out.old.items
        ++ output_demands (machines a.now b.now) (map node_of nodes.now) place (node_of node.now) variables.now) }
{
    for variable in variables {
        push_output(alloc, out, a, b, nodes, place, node, variable)?;
    }
    Ok(())
}
