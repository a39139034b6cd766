//! The cover of a machine, and the paths of its points.

ghost use Rattle.std.specs.Prelude.{◌≡◌, ◌≤◌, IsTrue, IfOk, length, map};
ghost use Rattle.fs_model.specs.Limits.{most_branches};
ghost use Rattle.fs_cut.specs.Paths.{is_point};
ghost use Rattle.fs_cut.specs.Covers.{cover_of, paths_of};
ghost use Rattle.fs_cut.specs.View.{point_of, path_of};

use fs_ast::machine::Machine;
use fs_cut::cover::{Cover, Path, Point};
use fs_cut::laws::the_cover_has_the_paths;
use fs_cut::make_cover::cover;
use nf_terms::stop::NoMemory;
use std::alloc::Global;

/// The cover of a machine. The one refusal is out of memory.
pub fn cover_of(alloc: Global, m: &Machine) -> Result<Cover, NoMemory>
    ensures { IfOk result (λ c. c ≡ cover_of m.now) }
{
    match cover(alloc, m) {
        Ok(cover) => Ok(cover),
        Err(_) => Err(NoMemory),
    }
}

/// The paths of a point of a machine, by its cover: at most 64.
pub fn paths<'c>(m: &Machine, cover: &'c Cover, point: Point) -> &'c [Path]
    requires cover { cover.now ≡ cover_of m.now }
    requires point { IsTrue (is_point m.now (point_of point)) }
    ensures paths { map path_of result.now ≡ paths_of m.now (point_of point) }
    ensures few { length result.now ≤ most_branches }
{
    let _sound = m.vars(); // The call tells the proof that the machine is sound.
    the_cover_has_the_paths();
    cover.from(point)
}
