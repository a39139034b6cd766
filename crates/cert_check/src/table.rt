//! Two machines with their covers and the nodes of a certificate.

ghost use Rattle.std.specs.Prelude.{◌≡◌};
ghost use Rattle.fs_cut.specs.Covers.{cover_of};

use crate::node_index::NodeIndex;
use fs_ast::machine::Machine;
use fs_cut::cover::Cover;

/// Two machines with their covers and the nodes of a certificate.
#[derive(Drop)]
pub struct Table<'a> {
    pub a: &'a Machine,
    pub b: &'a Machine,
    pub left: Cover,
    pub right: Cover,
    pub nodes: NodeIndex<'a>,
    ghost left_is: { left ≡ cover_of a.now },
    ghost right_is: { right ≡ cover_of b.now },
}
