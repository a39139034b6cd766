//! The names of the positions of two machines.

ghost use Rattle.std.specs.Prelude.{◌≡◌};
ghost use Rattle.fs_model.specs.SoundMachines.{IsSound};
ghost use Rattle.fs_pair.specs.Partners.{variables_on as variables_of};

use fs_ast::machine::Machine;
use fs_model::parts::VarInfo;
use nf_terms::tree::{Pos, Side};
use term_writer::names::PositionNames;

/// Two machines, whose variables name the positions.
#[derive(Clone, Copy)]
pub struct MachineNames<'a> {
    pub a: &'a Machine,
    pub b: &'a Machine,
}

// The variables of a side.
fn variables_on<'a>(names: &MachineNames<'a>, side: Side) -> &'a [VarInfo]
    ensures { result.now ≡ variables_of side names.now.a.now names.now.b.now }
{
    match side {
        Side::Left => names.a.vars(),
        Side::Right => names.b.vars(),
    }
}

impl<'a> PositionNames for MachineNames<'a> {
    ghost use Rattle.cert_writer.specs.View.{names_in};

    ghost name = { names_in };

    fn name(&self, p: Pos) -> &[u8] {
        match variables_on(self, p.side).get(p.var as usize) {
            Some(variable) => variable.name.bytes(),
            None => b"",
        }
    }
}

impl<'a> MachineNames<'a> {
    /// What holds of the two machines; nothing runs.
    pub fn hold(&self)
        ensures left { IsSound self.now.a.now }
        ensures right { IsSound self.now.b.now }
    {
        let _left = self.a.vars(); // These two calls tell the proof that both machines are sound.
        let _right = self.b.vars();
    }
}
