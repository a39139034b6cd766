//! The nodes of certificates, as lines.

ghost use Rattle.std.specs.Prelude.{◌≡◌, ◌≤◌, ◌++◌, OnOk, IfOk, length, map};
ghost use Rattle.cert_model.specs.View.{node_of};
ghost use Rattle.search_tables.specs.SearchTables.{machines};
ghost use Rattle.show_certificate_lines.specs.CertificateLines.{node_heading, node_text, node_texts, certificate_lines};

use crate::cases::write_case;
use crate::modes::mode_text;
use crate::telling::write_telling;
use cert_model::cert::Node;
use fs_ast::machine::Machine;
use nf_terms::stop::NoMemory;
use show_fact_text::lines::write_fact;
use show_fact_text::names::SideNames;
use show_fact_text::points::write_points;
use std::alloc::Global;

// Adds the first line of the node at a place: its points, which case it is, and its mode.
#[tactic(auto, unfolding(crate::specs::CertificateLines::node_heading))]
fn write_heading(
    alloc: Global,
    out: &mut Vec<u8>,
    a: &Machine,
    b: &Machine,
    all: &[Node],
    place: usize,
    node: &Node,
) -> Result<(), NoMemory>
    requires { place ≤ length all.now }
    ensures { OnOk result (out.new.items ≡ out.old.items
        ++ node_heading (machines a.now b.now) (map node_of all.now) place (node_of node.now)) }
{
    write_points(out, a, b, node.left, node.right)?;
    write_case(alloc, out, all, place, node)?;
    out.extend_from_slice(b", ")?;
    out.extend_from_slice(mode_text(node.mode))?;
    out.extend_from_slice(b"\n")?;
    Ok(())
}

// Adds the lines of the node at a place: its first line, what tells it from the others, and its fact.
fn write_node(
    alloc: Global,
    out: &mut Vec<u8>,
    a: &Machine,
    b: &Machine,
    all: &[Node],
    place: usize,
    node: &Node,
) -> Result<(), NoMemory>
    requires { place ≤ length all.now }
    ensures { OnOk result (out.new.items ≡ out.old.items
        ++ node_text (machines a.now b.now) (map node_of all.now) place (node_of node.now)) }
{
    let names = SideNames { left: a, right: b };
    write_heading(alloc, out, a, b, all, place, node)?;
    write_telling(alloc, out, &names, all, node)?;
    write_fact(out, b"  ", &names, &node.fact)
}

// Adds the lines of nodes.
fn write_nodes(
    alloc: Global,
    out: &mut Vec<u8>,
    a: &Machine,
    b: &Machine,
    nodes: &[Node],
) -> Result<(), NoMemory>
    ensures { OnOk result (out.new.items ≡ out.old.items
        ++ node_texts (machines a.now b.now) (map node_of nodes.now) 0 (map node_of nodes.now)) }
{
    for (place, node) in nodes.iter().enumerate() {
        write_node(alloc, out, a, b, nodes, place, node)?;
    }
    Ok(())
}

/// The lines of the nodes of a certificate, behind a heading. The one refusal is out of memory.
pub fn certificate_lines(
    alloc: Global,
    heading: &[u8],
    a: &Machine,
    b: &Machine,
    nodes: &[Node],
) -> Result<Vec<u8>, NoMemory>
    ensures { IfOk result (λ lines. lines.items ≡ certificate_lines heading.now (machines a.now b.now) (map node_of nodes.now)) }
{
    let mut lines = heading.to_vec(alloc)?;
    write_nodes(alloc, &mut lines, a, b, nodes)?;
    Ok(lines)
}
