//! The names of the positions of two machines.

ghost use Rattle.std.specs.Prelude.{◌≡◌};
ghost use Rattle.fs_pair.specs.Partners.{variables_on};

use fs_ast::machine::Machine;
use fs_model::parts::VarInfo;
use nf_terms::tree::{Pos, Side};
use term_writer::names::PositionNames;

/// Two machines, whose variables name the positions.
#[derive(Clone, Copy)]
pub struct SideNames<'a> {
    pub left: &'a Machine,
    pub right: &'a Machine,
}

// The variables of a side.
fn variables_on<'a>(names: &SideNames<'a>, side: Side) -> &'a [VarInfo]
    ensures { result.now ≡ variables_on side names.now.left.now names.now.right.now }
{
    match side {
        Side::Left => names.left.vars(),
        Side::Right => names.right.vars(),
    }
}

impl<'a> PositionNames for SideNames<'a> {
    ghost use Rattle.show_fact_text.specs.View.{side_names_in};

    ghost name = { side_names_in };

    fn name(&self, p: Pos) -> &[u8] {
        match variables_on(self, p.side).get(p.var as usize) {
            Some(variable) => variable.name.bytes(),
            None => b"",
        }
    }
}
