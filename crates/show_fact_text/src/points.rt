//! Points of two machines: their texts, and where a path leads.

ghost use Rattle.std.specs.Prelude.{◌≡◌, ◌++◌, OnOk, option_map};
ghost use Rattle.fs_cut.specs.View.{point_of, path_of};
ghost use Rattle.sym_paths.specs.Execution.{end_of};
ghost use Rattle.search_tables.specs.SearchTables.{machines};
ghost use Rattle.show_fact_text.specs.PointTexts.{points_text};

use crate::lines::write_bytes;
use fs_ast::machine::Machine;
use fs_cut::cover::{Path, Point};
use fs_cut::path_text::point_text;
use nf_terms::stop::NoMemory;

/// Adds two points. The one refusal is out of memory.
pub fn write_points(
    out: &mut Vec<u8>,
    a: &Machine,
    b: &Machine,
    left: Point,
    right: Point,
) -> Result<(), NoMemory>
    ensures { OnOk result (out.new.items ≡ out.old.items ++ points_text (machines a.now b.now) (point_of left) (point_of right)) }
{
    write_bytes(out, point_text(a, left))?;
    write_bytes(out, b" | ")?;
    write_bytes(out, point_text(b, right))
}

/// Where a side comes to, which keeps its point where it stays.
pub fn end_of(point: Point, path: Option<&Path>) -> Point
    ensures { point_of result ≡ end_of (point_of point) (option_map (λ p. path_of p.now) path.entry) }
{
    match path {
        Some(path) => path.to,
        None => point,
    }
}
