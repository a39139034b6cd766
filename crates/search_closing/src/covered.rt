//! Two machines with their covers.

ghost use Rattle.std.specs.Prelude.{◌≡◌};
ghost use Rattle.fs_cut.specs.Covers.{cover_of};

use fs_ast::machine::Machine;
use fs_cut::cover::Cover;

/// Two machines with their covers.
#[derive(Drop)]
pub(crate) struct Covered<'a> {
    pub(crate) a: &'a Machine,
    pub(crate) b: &'a Machine,
    pub(crate) left: &'a Cover,
    pub(crate) right: &'a Cover,
    ghost left_is: { left.now ≡ cover_of a.now },
    ghost right_is: { right.now ≡ cover_of b.now },
}

impl<'a> Covered<'a> {
    /// Two machines with these covers.
    pub(crate) fn of(
        a: &'a Machine,
        b: &'a Machine,
        left: &'a Cover,
        right: &'a Cover,
    ) -> Covered<'a>
        requires left_is { left.now ≡ cover_of a.now }
        requires right_is { right.now ≡ cover_of b.now }
        ensures left { result.a.now ≡ a.now }
        ensures right { result.b.now ≡ b.now }
    {
        Covered { a, b, left, right }
    }
}
