//! The picture of the search of two machines.

ghost use Rattle.std.specs.Prelude.{◌≡◌, ◌++◌, IfOk, None};
ghost use Rattle.fs_cut.specs.Covers.{cover_of};
ghost use Rattle.fs_pair.specs.Interfaces.{interface_fault};
ghost use Rattle.fs_pair.specs.Positions.{positions};
ghost use Rattle.search_tables.specs.SearchTables.{machines};
ghost use Rattle.search_tables.specs.View.{table_in};
ghost use Rattle.show_machine_pictures.specs.DotLines.{graph_text};
ghost use Rattle.show_move_lines.specs.View.{side_machines};
ghost use Rattle.show_search_views.specs.SearchPictures.{table_node_lines, search_picture, AreMarks, IsPicture};

use crate::edges::draw_moves;
use crate::marks::marks_of;
use crate::table_nodes::write_table_nodes;
use cert_model::covers::cover_of;
use fs_ast::machine::Machine;
use fs_cut::cover::Cover;
use fs_pair::positions::Pairing;
use fsmd_pair_answers::run::run;
use fsmd_pair_answers::searching::search;
use nf_terms::stop::NoMemory;
use search_tables::moves::Move;
use search_tables::nodes::SearchNode;
use show_machine_pictures::graphs::graph_text;
use show_move_lines::history::first_table;
use show_move_lines::sides::Sides;
use std::alloc::Global;

// The nodes of a table, and edges behind them, as a graph.
fn draw_table(
    alloc: Global,
    m: &Sides<'_>,
    marks: &[u32],
    nodes: &[SearchNode],
    edges: &[u8],
) -> Result<Vec<u8>, NoMemory>
    ensures { IfOk result (λ text. text.items
        ≡ graph_text (table_node_lines (side_machines m.now) marks.now 0 (table_in nodes.now) ++ edges.now)) }
{
    let mut lines = Vec::new(alloc);
    write_table_nodes(alloc, m, marks, nodes, &mut lines)?;
    lines.extend_from_slice(edges)?;
    Ok(graph_text(alloc, lines.as_slice())?)
}

// The picture of moves.
fn draw(alloc: Global, m: &Sides<'_>, marks: &[u32], moves: &[Move]) -> Result<Vec<u8>, NoMemory>
    ensures { IfOk result (λ text. text.items ≡ search_picture (side_machines m.now) marks.now moves.now) }
{
    let mut nodes = first_table(alloc, m)?;
    let mut edges = Vec::new(alloc);
    draw_moves(alloc, m, &mut nodes, moves, &mut edges)?;
    draw_table(alloc, m, marks, nodes.as_slice(), edges.as_slice())
}

// As `draw`, for references that live equally long.
fn draw_with<'a>(
    alloc: Global,
    a: &'a Machine,
    b: &'a Machine,
    p: &'a Pairing,
    ca: &'a Cover,
    cb: &'a Cover,
    marks: &[u32],
    moves: &[Move],
) -> Result<Vec<u8>, NoMemory>
    requires paired { p.now ≡ positions a.now b.now }
    requires left_cover { ca.now ≡ cover_of a.now }
    requires right_cover { cb.now ≡ cover_of b.now }
    ensures { IfOk result (λ text. text.items ≡ search_picture (machines a.now b.now) marks.now moves.now) }
{
    let sides = Sides {
        left: a,
        right: b,
        pairing: p,
        left_cover: ca,
        right_cover: cb,
    };
    draw(alloc, &sides, marks, moves)
}

// The nodes at which the search of two machines stops.
fn search_marks(alloc: Global, a: &Machine, b: &Machine, p: &Pairing) -> Result<Vec<u32>, NoMemory>
    requires paired { p.now ≡ positions a.now b.now }
    requires interface { interface_fault a.now b.now ≡ None }
    ensures { IfOk result (λ marks. AreMarks (machines a.now b.now) marks.items) }
{
    let outcome = search(alloc, a, b, p)?;
    marks_of(alloc, &outcome)
}

// As `search_picture`, over the covers of the machines, with the nodes at which their search stops.
fn picture_with(
    alloc: Global,
    a: &Machine,
    b: &Machine,
    p: &Pairing,
    ca: &Cover,
    cb: &Cover,
    marks: &[u32],
) -> Result<Vec<u8>, NoMemory>
    requires paired { p.now ≡ positions a.now b.now }
    requires interface { interface_fault a.now b.now ≡ None }
    requires left_cover { ca.now ≡ cover_of a.now }
    requires right_cover { cb.now ≡ cover_of b.now }
    requires marks { AreMarks (machines a.now b.now) marks.now }
    ensures { IfOk result (λ text. IsPicture (machines a.now b.now) text.items) }
{
    let ended = run(alloc, a, b, p, ca, cb)?;
    draw_with(alloc, a, b, p, ca, cb, marks, ended.moves.as_slice())
}

// As `search_picture`, over the covers of the machines.
fn picture_over(
    alloc: Global,
    a: &Machine,
    b: &Machine,
    p: &Pairing,
    ca: &Cover,
    cb: &Cover,
) -> Result<Vec<u8>, NoMemory>
    requires paired { p.now ≡ positions a.now b.now }
    requires interface { interface_fault a.now b.now ≡ None }
    requires left_cover { ca.now ≡ cover_of a.now }
    requires right_cover { cb.now ≡ cover_of b.now }
    ensures { IfOk result (λ text. IsPicture (machines a.now b.now) text.items) }
{
    let marks = search_marks(alloc, a, b, p)?;
    picture_with(alloc, a, b, p, ca, cb, marks.as_slice())
}

/// The picture of the search of two machines with the same inputs and outputs, as a graph in DOT: a node for each node of the
/// table that its moves make, with its points and its fact, an equation a line, and an edge for each move, with the paths of
/// both sides. What the search stops at stands out. The one refusal is out of memory.
pub fn search_picture(
    alloc: Global,
    a: &Machine,
    b: &Machine,
    p: &Pairing,
) -> Result<Vec<u8>, NoMemory>
    requires paired { p.now ≡ positions a.now b.now }
    requires interface { interface_fault a.now b.now ≡ None }
    ensures { IfOk result (λ text. IsPicture (machines a.now b.now) text.items) }
{
    let ca = cover_of(alloc, a)?;
    let cb = cover_of(alloc, b)?;
    picture_over(alloc, a, b, p, &ca, &cb)
}
