//! The nodes of a certificate that share their points, numbered in order.

ghost use Rattle.std.specs.Prelude.{◌≡◌, ◌≤◌, ◌++◌, ◌∷◌, [], IfOk, OnOk, length, map};
ghost use Rattle.fs_cut.specs.View.{point_of};
ghost use Rattle.cert_model.specs.Obligations.{nodes_at};
ghost use Rattle.cert_model.specs.View.{node_of};
ghost use Rattle.show_certificate_lines.specs.Cases.{case_words, case_text, case_at};

use cert_model::cert::Node;
use fs_cut::cover::Point;
use itoa::Buffer;
use nf_terms::stop::NoMemory;
use std::alloc::Global;

// Adds a node, where it stands at two points.
fn push_at<'a>(
    found: &mut Vec<&'a Node>,
    node: &'a Node,
    left: Point,
    right: Point,
) -> Result<(), NoMemory>
    ensures { OnOk result (map (λ n. node_of n.now) found.new.items ≡ map (λ n. node_of n.now) found.old.items
        ++ nodes_at (node_of node.now ∷ []) (point_of left) (point_of right)) }
{
    if node.left.is_same(left) && node.right.is_same(right) {
        found.push(node)?;
    }
    Ok(())
}

/// The nodes at two points, in order. The one refusal is out of memory.
pub fn nodes_at<'a>(
    alloc: Global,
    nodes: &'a [Node],
    left: Point,
    right: Point,
) -> Result<Vec<&'a Node>, NoMemory>
    ensures { IfOk result (λ found. map (λ n. node_of n.now) found.items
        ≡ nodes_at (map node_of nodes.now) (point_of left) (point_of right)) }
{
    let mut found = Vec::new(alloc);
    for node in nodes {
        push_at(&mut found, node, left, right)?;
    }
    Ok(found)
}

/// Adds which of how many cases it is. The one refusal is out of memory.
#[tactic(auto, unfolding(crate::specs::Cases::case_words))]
pub fn write_case_words(out: &mut Vec<u8>, number: usize, count: usize) -> Result<(), NoMemory>
    ensures { OnOk result (out.new.items ≡ out.old.items ++ case_words number count) }
{
    let mut number_buffer = Buffer::new();
    let mut count_buffer = Buffer::new();
    out.extend_from_slice(b" case ")?;
    out.extend_from_slice(number_buffer.format(number).as_bytes())?;
    out.extend_from_slice(b" of ")?;
    out.extend_from_slice(count_buffer.format(count).as_bytes())?;
    Ok(())
}

// Adds which of how many cases it is, where there are several.
fn write_case_of(out: &mut Vec<u8>, number: usize, count: usize) -> Result<(), NoMemory>
    ensures { OnOk result (out.new.items ≡ out.old.items ++ case_text number count) }
{
    if 1 < count {
        write_case_words(out, number, count)?;
    }
    Ok(())
}

/// Adds which of the nodes at its points the one at a place is, where there are several. The one refusal is out of memory.
pub fn write_case(
    alloc: Global,
    out: &mut Vec<u8>,
    nodes: &[Node],
    place: usize,
    node: &Node,
) -> Result<(), NoMemory>
    requires { place ≤ length nodes.now }
    ensures { OnOk result (out.new.items ≡ out.old.items ++ case_at (map node_of nodes.now) place (node_of node.now)) }
{
    let before = nodes_at(alloc, &nodes[..place], node.left, node.right)?;
    let all = nodes_at(alloc, nodes, node.left, node.right)?;
    write_case_of(out, before.len() + 1, all.len())
}
