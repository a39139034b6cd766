//! Writes points and paths, and lists the paths of a machine.

ghost use Rattle.std.specs.Prelude.{◌≡◌, ◌++◌, IfOk, map, decimal};
ghost use Rattle.std.specs.List.{flat_map};
ghost use Rattle.std.specs.Result.{OnOk};
ghost use Rattle.fs_cut.specs.Covers.{paths_from, cover_of};
ghost use Rattle.fs_cut.specs.View.{point_of, path_of};
ghost use Rattle.fs_cut.specs.PathTexts.{point_text, named_path, path_line, paths_text};

use crate::cover::{Path, Point};
use crate::make_cover::{point_paths, points};
use fs_ast::machine::Machine;
use std::alloc::{AllocError, Global};

/// What a point prints as: `start`, the state's name, or `done`. Takes no memory.
pub fn point_text(machine: &Machine, point: Point) -> &[u8]
    ensures { result.now ≡ point_text machine.now (point_of point) }
{
    match point {
        Point::Start => "start".as_bytes(),
        Point::At(state) if state.0 < machine.state_count() => machine.state_name(state).bytes(),
        Point::At(_) => &[],
        Point::Done => "done".as_bytes(),
    }
}

// Adds ".BRANCH>", or ": COUNT steps".
fn write_number(
    alloc: Global,
    before: &str,
    number: usize,
    after: &str,
    out: &mut Vec<u8>,
) -> Result<(), AllocError>
    ensures { OnOk result (out.new.items ≡ out.old.items ++ (before.now ++ (decimal number ++ after.now))) }
{
    let text = format!(in alloc; "{before}{number}{after}")?;
    out.extend_from_slice(text.as_bytes())
}

/// Adds a path as `FROM.BRANCH>TO`: the points where it begins and ends, and the number of its branch. The
/// one refusal is out of memory.
pub fn write_named_path(
    alloc: Global,
    machine: &Machine,
    path: &Path,
    out: &mut Vec<u8>,
) -> Result<(), AllocError>
    ensures { OnOk result (out.new.items ≡ out.old.items ++ named_path machine.now (path_of path.now)) }
{
    out.extend_from_slice(point_text(machine, path.from))?;
    write_number(alloc, ".", path.branch as usize, ">", out)?;
    out.extend_from_slice(point_text(machine, path.to))
}

// Adds the line of a path.
fn write_path(
    alloc: Global,
    machine: &Machine,
    path: &Path,
    out: &mut Vec<u8>,
) -> Result<(), AllocError>
    ensures { OnOk result (out.new.items ≡ out.old.items ++ path_line machine.now (path_of path.now)) }
{
    write_named_path(alloc, machine, path, out)?;
    write_number(alloc, ": ", path.states.len(), " steps\n", out)
}

// Adds the lines of paths.
fn write_paths(
    alloc: Global,
    machine: &Machine,
    paths: &[Path],
    out: &mut Vec<u8>,
) -> Result<(), AllocError>
    ensures { OnOk result (out.new.items ≡ out.old.items ++ flat_map (path_line machine.now) (map path_of paths.now)) }
{
    for path in paths {
        write_path(alloc, machine, path, out)?;
    }
    Ok(())
}

// Adds the lines of the paths of a point.
fn write_point(
    alloc: Global,
    machine: &Machine,
    point: Point,
    out: &mut Vec<u8>,
) -> Result<(), AllocError>
    ensures { OnOk result
        (out.new.items ≡ out.old.items
        ++ flat_map (path_line machine.now) (paths_from (cover_of machine.now) (point_of point))) }
{
    match point_paths(alloc, machine, point) {
        Ok(paths) => write_paths(alloc, machine, &paths, out),
        Err(_) => Err(AllocError),
    }
}

// The lines of the paths of each of these points.
fn write_points(alloc: Global, machine: &Machine, points: &[Point]) -> Result<Vec<u8>, AllocError>
    ensures { IfOk result
        (λ out. out.items
        ≡ flat_map (λ P. flat_map (path_line machine.now) (paths_from (cover_of machine.now) P)) (map point_of points.now)) }
{
    let mut out = Vec::new(alloc);
    for point in points {
        write_point(alloc, machine, *point, &mut out)?;
    }
    Ok(out)
}

/// The text that lists the paths of a machine, each on a line: by the points that they begin at, in order, and
/// then by branches. It holds the paths of one point at a time. The one refusal is out of memory.
pub fn list_paths(alloc: Global, machine: &Machine) -> Result<Vec<u8>, AllocError>
    ensures { IfOk result (λ out. out.items ≡ paths_text machine.now) }
{
    match points(alloc, machine) {
        Ok(points) => write_points(alloc, machine, &points),
        Err(_) => Err(AllocError),
    }
}
