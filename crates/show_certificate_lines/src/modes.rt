//! The words of modes.

ghost use Rattle.std.specs.Prelude.{◌≡◌};
ghost use Rattle.cert_writer.specs.WrittenCertificates.{mode_written};

use cert_bisimulation::mode::Mode;

/// The word of a mode, as certificates have it.
pub fn mode_text(mode: Mode) -> &'static [u8]
    ensures { result.now ≡ mode_written mode }
{
    match mode {
        Mode::Both => b"both",
        Mode::Left => b"left",
        Mode::Right => b"right",
        Mode::End => b"end",
    }
}
