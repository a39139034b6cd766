//! Graphs, their nodes and their edges.

ghost use Rattle.std.specs.Prelude.{◌≡◌, ◌++◌, OnOk, IfOk};
ghost use Rattle.show_machine_pictures.specs.DotLines.{look_text, mark_text, label_text, node_line, edge_line, graph_text};

use crate::quotes::write_quoted;
use std::alloc::{AllocError, Global};

/// How a node looks.
#[derive(Clone, Copy)]
pub enum Look {
    /// A box round its label.
    Boxed,
    /// Its label alone.
    Bare,
    /// A box round its label that stands out.
    Marked,
}

fn look_text(look: Look) -> &'static [u8]
    ensures { result.now ≡ look_text look }
{
    match look {
        Look::Boxed => b", shape=box",
        Look::Bare => b", shape=plaintext",
        Look::Marked => b", shape=box, color=red",
    }
}

fn mark_text(marked: bool) -> &'static [u8]
    ensures { result.now ≡ mark_text marked }
{
    if marked { b", color=red" } else { b"" }
}

// Adds the end of a line: a label, and how it looks.
#[tactic(auto, unfolding(crate::specs::DotLines::label_text))]
fn write_label(out: &mut Vec<u8>, label: &[u8], look: &[u8]) -> Result<(), AllocError>
    ensures { OnOk result (out.new.items ≡ out.old.items ++ label_text label.now look.now) }
{
    out.extend_from_slice(b" [label=")?;
    write_quoted(out, label)?;
    out.extend_from_slice(look)?;
    out.extend_from_slice(b"];\n")
}

/// Adds the line of a node: its name, and its label, in which each line ends at the left. The one refusal is out of memory.
#[tactic(auto, unfolding(crate::specs::DotLines::node_line))]
pub fn write_node(
    out: &mut Vec<u8>,
    name: &[u8],
    label: &[u8],
    look: Look,
) -> Result<(), AllocError>
    ensures { OnOk result (out.new.items ≡ out.old.items ++ node_line name.now label.now look) }
{
    out.extend_from_slice(b"  ")?;
    write_quoted(out, name)?;
    write_label(out, label, look_text(look))
}

/// Adds the line of an edge: the names of its nodes, and its label. The one refusal is out of memory.
#[tactic(auto, unfolding(crate::specs::DotLines::edge_line))]
pub fn write_edge(
    out: &mut Vec<u8>,
    from: &[u8],
    to: &[u8],
    label: &[u8],
    marked: bool,
) -> Result<(), AllocError>
    ensures { OnOk result (out.new.items ≡ out.old.items ++ edge_line from.now to.now label.now marked) }
{
    out.extend_from_slice(b"  ")?;
    write_quoted(out, from)?;
    out.extend_from_slice(b" -> ")?;
    write_quoted(out, to)?;
    write_label(out, label, mark_text(marked))
}

/// The text of a graph with these lines. The one refusal is out of memory.
#[tactic(auto, unfolding(crate::specs::DotLines::graph_text))]
pub fn graph_text(alloc: Global, lines: &[u8]) -> Result<Vec<u8>, AllocError>
    ensures { IfOk result (λ text. text.items ≡ graph_text lines.now) }
{
    let mut text = b"digraph {\n".to_vec(alloc)?;
    text.extend_from_slice(lines)?;
    text.extend_from_slice(b"}\n")?;
    Ok(text)
}
