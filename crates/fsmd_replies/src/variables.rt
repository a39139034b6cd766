//! The names of variables.

ghost use Rattle.std.specs.Prelude.{◌≡◌};
ghost use Rattle.fs_model.specs.VariableNames.{variable_name};

use fs_model::parts::{VarId, VarInfo};

/// The name of a variable, or no text where there is no such variable. Takes no memory.
pub fn variable_name(variables: &[VarInfo], x: VarId) -> &[u8]
    ensures { result.now ≡ variable_name variables.now x.0 }
{
    match variables.get(x.0 as usize) {
        Some(variable) => variable.name.bytes(),
        None => &[],
    }
}
