//! Whether the last transition of a state has a guard.

ghost use Rattle.std.specs.Prelude.{◌≡◌, map};
ghost use Rattle.fs_model.specs.View.{source_transition_of};
ghost use Rattle.fs_else_transitions.specs.ElseTransitions.{lacks_else};

use fs_model::parts::RawLine;

/// Whether the last transition has a guard, or there is none.
pub fn lacks_else(lines: &[RawLine]) -> bool
    ensures { result ≡ lacks_else (map source_transition_of lines.now) }
{
    match lines.last() {
        None => true,
        Some(line) => line.guard.is_some(),
    }
}
