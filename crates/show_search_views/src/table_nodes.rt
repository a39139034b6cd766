//! The nodes of a table.

ghost use Rattle.std.specs.Prelude.{◌≡◌, ◌++◌, IfOk, OnOk};
ghost use Rattle.search_tables.specs.View.{search_node_in, table_in};
ghost use Rattle.show_move_lines.specs.View.{side_machines};
ghost use Rattle.show_search_views.specs.SearchPictures.{node_label, table_node_line, table_node_lines};

use crate::marks::look_at;
use itoa::Buffer;
use nf_terms::stop::NoMemory;
use search_tables::nodes::SearchNode;
use show_fact_text::lines::write_fact;
use show_fact_text::names::SideNames;
use show_fact_text::points::write_points;
use show_machine_pictures::graphs::write_node;
use show_move_lines::sides::Sides;
use std::alloc::Global;

// The label of a node: its points, and its fact.
#[tactic(auto, unfolding(crate::specs::SearchPictures::node_label))]
fn node_label(alloc: Global, m: &Sides<'_>, node: &SearchNode) -> Result<Vec<u8>, NoMemory>
    ensures { IfOk result (λ label. label.items ≡ node_label (side_machines m.now) (search_node_in node.now)) }
{
    let names = SideNames {
        left: m.left,
        right: m.right,
    };
    let mut label = Vec::new(alloc);
    write_points(&mut label, m.left, m.right, node.left, node.right)?;
    label.extend_from_slice(b"\n")?;
    write_fact(&mut label, b"", &names, &node.fact)?;
    Ok(label)
}

// Adds the line of a node.
fn write_table_node(
    alloc: Global,
    m: &Sides<'_>,
    marks: &[u32],
    number: usize,
    node: &SearchNode,
    out: &mut Vec<u8>,
) -> Result<(), NoMemory>
    ensures { OnOk result (out.new.items ≡ out.old.items
        ++ table_node_line (side_machines m.now) marks.now number (search_node_in node.now)) }
{
    let mut buffer = Buffer::new();
    let name = buffer.format(number).as_bytes();
    let label = node_label(alloc, m, node)?;
    write_node(out, name, label.as_slice(), look_at(marks, number))?;
    Ok(())
}

/// Adds the lines of the nodes of a table, each named by its number. The one refusal is out of memory.
pub fn write_table_nodes(
    alloc: Global,
    m: &Sides<'_>,
    marks: &[u32],
    nodes: &[SearchNode],
    out: &mut Vec<u8>,
) -> Result<(), NoMemory>
    ensures { OnOk result
        (out.new.items ≡ out.old.items ++ table_node_lines (side_machines m.now) marks.now 0 (table_in nodes.now)) }
{
    for (number, node) in nodes.iter().enumerate() {
        write_table_node(alloc, m, marks, number, node, out)?;
    }
    Ok(())
}
