//! Ranks along moves.

ghost use Rattle.std.specs.Prelude.{◌≡◌, not, ◌||◌, nat_lt};
ghost use Rattle.cert_bisimulation.specs.Ranks.{same_alone};

use crate::mode::Mode;

// Whether one machine moves alone in both modes, and it is the same.
fn same_alone(mode: Mode, next: Mode) -> bool
    ensures { result ≡ same_alone mode next }
{
    match mode {
        Mode::Left => matches!(next, Mode::Left),
        Mode::Right => matches!(next, Mode::Right),
        Mode::Both | Mode::End => false,
    }
}

/// Whether the rank falls from a node to the next one, by their modes and ranks, where it has to: where one machine moves
/// alone in both modes, and it is the same.
pub fn rank_falls(mode: Mode, rank: u32, next: Mode, next_rank: u32) -> bool
    ensures { result ≡ not (same_alone mode next) || nat_lt next_rank rank }
{
    !same_alone(mode, next) || next_rank < rank
}
