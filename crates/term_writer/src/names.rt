//! The names of positions.

use nf_terms::tree::Pos;

/// The names of positions on their sides.
pub trait PositionNames {
    ghost use Rattle.std.specs.Prelude.{◌≡◌, ℕ, List};
    ghost use Rattle.fs_model.specs.declared.sides.Pos.{Pos};

    /// The name of each position.
    ghost name: { Self → Pos → List ℕ };

    /// The name of a position, without its side.
    fn name(&self, p: Pos) -> &[u8]
        ensures { result.now ≡ name self.now p };
}
