//! The texts of points and modes.

ghost use Rattle.std.specs.Prelude.{◌≡◌, true};
ghost use Rattle.fs_cut.specs.Paths.{is_point};
ghost use Rattle.fs_cut.specs.View.{point_of};
ghost use Rattle.cert_writer.specs.WrittenCertificates.{point_written, mode_written};

use crate::texts::name_text;
use cert_bisimulation::mode::Mode;
use fs_ast::machine::Machine;
use fs_cut::cover::Point;

/// The text of a point of a machine. Takes no memory.
#[tactic(auto, using(crate::proofs::Forks::state_there))]
pub fn point_text(m: &Machine, point: Point) -> &str
    requires { is_point m.now (point_of point) ≡ true }
    ensures { result.now ≡ point_written m.now (point_of point) }
{
    match point {
        Point::Start => "start",
        Point::At(state) => name_text(m.state_name(state)),
        Point::Done => "done",
    }
}

/// The text of a mode.
pub fn mode_text(mode: Mode) -> &'static str
    ensures { result.now ≡ mode_written mode }
{
    match mode {
        Mode::Both => "both",
        Mode::Left => "left",
        Mode::Right => "right",
        Mode::End => "end",
    }
}
