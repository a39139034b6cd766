//! The format that parts need.

ghost use Rattle.std.specs.Prelude.{◌≡◌, map};
ghost use Rattle.std.specs.List.{list_any};
ghost use Rattle.fs_model.specs.View.{named_assignment, declaration_of, source_transition_of, source_state_of, source_of};
ghost use Rattle.fs_write.specs.NeededFormats.{declares_ports, is_emit, emits_in_transition, emits_in_state, format_for};

use fs_grammar::format::Format;
use fs_model::name::Name;
use fs_model::parts::{Assign, Decl, Parts, RawLine, RawState};

fn is_emit(assign: &Assign<Name>) -> bool
    ensures { result ≡ is_emit (named_assignment assign.now) }
{
    matches!(assign, Assign::Emit(..))
}

fn declare_ports(decls: &[Decl]) -> bool
    ensures { result ≡ list_any declares_ports (map declaration_of decls.now) }
{
    decls.iter().any(|decl| decl.sort.is_port())
}

fn have_emits(assigns: &[Assign<Name>]) -> bool
    ensures { result ≡ list_any is_emit (map named_assignment assigns.now) }
{
    assigns.iter().any(|assign| is_emit(assign))
}

fn emit_in_transitions(lines: &[RawLine]) -> bool
    ensures { result ≡ list_any emits_in_transition (map source_transition_of lines.now) }
{
    lines.iter().any(|line| have_emits(&line.assigns))
}

fn emit_in_states(states: &[RawState]) -> bool
    ensures { result ≡ list_any emits_in_state (map source_state_of states.now) }
{
    states.iter().any(|state| emit_in_transitions(&state.lines))
}

/// The least format whose texts can spell the parts: 2 exactly where they declare ports or emit.
pub fn format_for(parts: &Parts) -> Format
    ensures { result ≡ format_for (source_of parts.now) }
{
    if declare_ports(&parts.decls) || emit_in_states(&parts.states) {
        Format::Two
    } else {
        Format::One
    }
}
