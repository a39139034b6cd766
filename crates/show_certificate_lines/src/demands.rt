//! What the obligations of a certificate ask, in order.

ghost use Rattle.std.specs.Prelude.{◌≡◌, ◌≤◌, ◌++◌, IfOk, OnOk, length, map};
ghost use Rattle.fs_cut.specs.Covers.{cover_of};
ghost use Rattle.cert_model.specs.View.{node_of};
ghost use Rattle.search_tables.specs.SearchTables.{machines};
ghost use Rattle.show_certificate_lines.specs.Demands.{start_demand, mode_demand, demands_by_mode, demands_of};
ghost use Rattle.show_certificate_lines.specs.Demands.{demands_from, demands};

use crate::cases::write_case;
use crate::modes::mode_text;
use crate::move_cases::write_any_case;
use crate::move_demands::{push_both, push_lefts, push_outputs, push_rights};
use crate::telling::write_telling;
use cert_bisimulation::mode::Mode;
use cert_model::cert::Node;
use cert_model::covers::cover_of;
use fs_ast::machine::Machine;
use fs_cut::cover::{Cover, Point};
use nf_terms::stop::NoMemory;
use show_fact_text::names::SideNames;
use show_fact_text::points::write_points;
use std::alloc::Global;

// What the start asks.
#[tactic(auto, unfolding(crate::specs::Demands::start_demand))]
fn start_demand(
    alloc: Global,
    a: &Machine,
    b: &Machine,
    nodes: &[Node],
) -> Result<Vec<u8>, NoMemory>
    ensures { IfOk result (λ text. text.items ≡ start_demand (machines a.now b.now) (map node_of nodes.now)) }
{
    let mut text = Vec::new(alloc);
    write_points(&mut text, a, b, Point::Start, Point::Start)?;
    write_any_case(alloc, &mut text, nodes, Point::Start, Point::Start)?;
    text.extend_from_slice(b": the fact of the start stores\n")?;
    Ok(text)
}

// Adds what the mode of the node at a place asks.
#[tactic(auto, unfolding(crate::specs::Demands::mode_demand))]
fn write_mode_demand(
    alloc: Global,
    out: &mut Vec<u8>,
    a: &Machine,
    b: &Machine,
    nodes: &[Node],
    place: usize,
    node: &Node,
) -> Result<(), NoMemory>
    requires { place ≤ length nodes.now }
    ensures { OnOk result (out.new.items ≡ out.old.items
        ++ mode_demand (machines a.now b.now) (map node_of nodes.now) place (node_of node.now)) }
{
    let names = SideNames { left: a, right: b };
    write_points(out, a, b, node.left, node.right)?;
    write_case(alloc, out, nodes, place, node)?;
    out.extend_from_slice(b": mode ")?;
    out.extend_from_slice(mode_text(node.mode))?;
    out.extend_from_slice(b"\n")?;
    write_telling(alloc, out, &names, nodes, node)
}

// What the mode of the node at a place asks.
fn mode_demand(
    alloc: Global,
    a: &Machine,
    b: &Machine,
    nodes: &[Node],
    place: usize,
    node: &Node,
) -> Result<Vec<u8>, NoMemory>
    requires { place ≤ length nodes.now }
    ensures { IfOk result
        (λ text. text.items ≡ mode_demand (machines a.now b.now) (map node_of nodes.now) place (node_of node.now)) }
{
    let mut text = Vec::new(alloc);
    write_mode_demand(alloc, &mut text, a, b, nodes, place, node)?;
    Ok(text)
}

// Adds what the moves of the node at a place ask, or its outputs.
fn push_moves(
    alloc: Global,
    out: &mut Vec<Vec<u8>>,
    a: &Machine,
    b: &Machine,
    ca: &Cover,
    cb: &Cover,
    nodes: &[Node],
    place: usize,
    node: &Node,
) -> Result<(), NoMemory>
    requires left { ca.now ≡ cover_of a.now }
    requires right { cb.now ≡ cover_of b.now }
    requires place { place ≤ length nodes.now }
    ensures { OnOk result (map (λ t. t.items) out.new.items ≡ map (λ t. t.items) out.old.items
        ++ demands_by_mode node.now.mode (machines a.now b.now) (map node_of nodes.now) place (node_of node.now)) }
{
    let lefts = ca.from(node.left);
    let rights = cb.from(node.right);
    match node.mode {
        Mode::Both => push_both(alloc, out, a, b, nodes, node, lefts, rights),
        Mode::Left => push_lefts(alloc, out, a, b, nodes, node, lefts),
        Mode::Right => push_rights(alloc, out, a, b, nodes, node, None, rights),
        Mode::End => push_outputs(alloc, out, a, b, nodes, place, node, a.vars()),
    }
}

// Adds what the node at a place asks: its mode, and then its moves or its outputs.
fn push_node(
    alloc: Global,
    out: &mut Vec<Vec<u8>>,
    a: &Machine,
    b: &Machine,
    ca: &Cover,
    cb: &Cover,
    nodes: &[Node],
    place: usize,
    node: &Node,
) -> Result<(), NoMemory>
    requires left { ca.now ≡ cover_of a.now }
    requires right { cb.now ≡ cover_of b.now }
    requires place { place ≤ length nodes.now }
    ensures { OnOk result (map (λ t. t.items) out.new.items ≡ map (λ t. t.items) out.old.items
        ++ demands_of (machines a.now b.now) (map node_of nodes.now) place (node_of node.now)) }
{
    out.push(mode_demand(alloc, a, b, nodes, place, node)?)?;
    push_moves(alloc, out, a, b, ca, cb, nodes, place, node)
}

// Adds what nodes ask.
fn push_nodes(
    alloc: Global,
    out: &mut Vec<Vec<u8>>,
    a: &Machine,
    b: &Machine,
    ca: &Cover,
    cb: &Cover,
    nodes: &[Node],
) -> Result<(), NoMemory>
    requires left { ca.now ≡ cover_of a.now }
    requires right { cb.now ≡ cover_of b.now }
    ensures { OnOk result (map (λ t. t.items) out.new.items ≡ map (λ t. t.items) out.old.items
        ++ demands_from (machines a.now b.now) (map node_of nodes.now) 0 (map node_of nodes.now)) }
{
    for (place, node) in nodes.iter().enumerate() {
        push_node(alloc, out, a, b, ca, cb, nodes, place, node)?;
    }
    Ok(())
}

// What the obligations of a certificate ask, over the covers of the machines.
fn demands_over(
    alloc: Global,
    a: &Machine,
    b: &Machine,
    ca: &Cover,
    cb: &Cover,
    nodes: &[Node],
) -> Result<Vec<Vec<u8>>, NoMemory>
    requires left { ca.now ≡ cover_of a.now }
    requires right { cb.now ≡ cover_of b.now }
    ensures { IfOk result (λ texts. map (λ t. t.items) texts.items ≡ demands (machines a.now b.now) (map node_of nodes.now)) }
{
    let mut texts = Vec::new(alloc);
    texts.push(start_demand(alloc, a, b, nodes)?)?;
    push_nodes(alloc, &mut texts, a, b, ca, cb, nodes)?;
    Ok(texts)
}

/// What the obligations of a certificate ask, in order. The one refusal is out of memory.
pub fn demands(
    alloc: Global,
    a: &Machine,
    b: &Machine,
    nodes: &[Node],
) -> Result<Vec<Vec<u8>>, NoMemory>
    ensures { IfOk result (λ texts. map (λ t. t.items) texts.items ≡ demands (machines a.now b.now) (map node_of nodes.now)) }
{
    let ca = cover_of(alloc, a)?;
    let cb = cover_of(alloc, b)?;
    demands_over(alloc, a, b, &ca, &cb, nodes)
}
