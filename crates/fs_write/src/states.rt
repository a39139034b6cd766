//! The texts of declarations, transitions and states.

ghost use Rattle.std.specs.Prelude.{◌≡◌, ◌++◌, IsTrue, OnOk, map};
ghost use Rattle.std.specs.List.{flat_map, list_all};
ghost use Rattle.fs_model.specs.Words.{is_name};
ghost use Rattle.fs_model.specs.View.{named_assignment, declaration_of, source_transition_of, source_state_of, source_of};
ghost use Rattle.fs_write.specs.Canonical.{comma_list, after_comma, assignment_text, assignments_text, line_text, state_text};
ghost use Rattle.fs_write.specs.Canonical.{role_text, declaration_words, declaration_text, head_text, canonical};
ghost use Rattle.fs_write.specs.Spellable.{is_spellable_assignment, is_spellable_transition, is_spellable_state};
ghost use Rattle.fs_write.specs.Spellable.{is_spellable_declaration, is_spellable};

use crate::expressions::{write_expr, write_three, write_two};
use crate::formats::format_for;
use crate::guards::write_condition;
use fs_grammar::format::Format;
use fs_model::name::Name;
use fs_model::parts::{Assign, Decl, Parts, RawLine, RawState, Role, Sort};
use std::alloc::AllocError;

fn write_assign(out: &mut Vec<u8>, assign: &Assign<Name>) -> Result<(), AllocError>
    ensures text { OnOk result (out.new.items ≡ out.old.items ++ assignment_text (named_assignment assign.now)) }
    ensures words { OnOk result (IsTrue (is_spellable_assignment (named_assignment assign.now))) }
{
    match assign {
        Assign::Set(name, value) => {
            write_two(out, name.bytes(), b" = ")?;
            write_expr(out, value)
        }
        Assign::Put(name, index, value) => {
            write_two(out, name.bytes(), b"[")?;
            write_expr(out, index)?;
            out.extend_from_slice(b"] = ")?;
            write_expr(out, value)
        }
        Assign::Emit(name, value) => {
            write_three(out, b"emit ", name.bytes(), b" ")?;
            write_expr(out, value)
        }
    }
}

// Writes the assignments after the first one.
fn write_more_assigns(out: &mut Vec<u8>, assigns: &[Assign<Name>]) -> Result<(), AllocError>
    ensures text { OnOk result
        (out.new.items ≡ out.old.items ++ flat_map after_comma (map assignment_text (map named_assignment assigns.now))) }
    ensures words { OnOk result (IsTrue (list_all is_spellable_assignment (map named_assignment assigns.now))) }
{
    for assign in assigns {
        out.extend_from_slice(b", ")?;
        write_assign(out, assign)?;
    }
    Ok(())
}

// Writes the assignments of a transition, or nothing where it has none.
fn write_assigns(out: &mut Vec<u8>, assigns: &[Assign<Name>]) -> Result<(), AllocError>
    ensures text { OnOk result (out.new.items ≡ out.old.items ++ assignments_text (map named_assignment assigns.now)) }
    ensures words { OnOk result (IsTrue (list_all is_spellable_assignment (map named_assignment assigns.now))) }
{
    match assigns {
        [] => Ok(()),
        [first, rest @ ..] => {
            out.extend_from_slice(b": ")?;
            write_assign(out, first)?;
            write_more_assigns(out, rest)
        }
    }
}

fn write_line(out: &mut Vec<u8>, line: &RawLine) -> Result<(), AllocError>
    ensures text { OnOk result (out.new.items ≡ out.old.items ++ line_text (source_transition_of line.now)) }
    ensures words { OnOk result (IsTrue (is_spellable_transition (source_transition_of line.now))) }
{
    out.extend_from_slice(b"  ")?;
    write_condition(out, &line.guard)?;
    write_two(out, b"goto ", line.target.bytes())?;
    write_assigns(out, &line.assigns)?;
    out.extend_from_slice(b";\n")
}

fn write_lines(out: &mut Vec<u8>, lines: &[RawLine]) -> Result<(), AllocError>
    ensures text { OnOk result (out.new.items ≡ out.old.items ++ flat_map line_text (map source_transition_of lines.now)) }
    ensures words { OnOk result (IsTrue (list_all is_spellable_transition (map source_transition_of lines.now))) }
{
    for line in lines {
        write_line(out, line)?;
    }
    Ok(())
}

fn write_state(out: &mut Vec<u8>, state: &RawState) -> Result<(), AllocError>
    ensures text { OnOk result (out.new.items ≡ out.old.items ++ state_text (source_state_of state.now)) }
    ensures words { OnOk result (IsTrue (is_spellable_state (source_state_of state.now))) }
{
    write_three(out, b"state ", state.name.bytes(), b":\n")?;
    write_lines(out, &state.lines)
}

fn write_states(out: &mut Vec<u8>, states: &[RawState]) -> Result<(), AllocError>
    ensures text { OnOk result (out.new.items ≡ out.old.items ++ flat_map state_text (map source_state_of states.now)) }
    ensures words { OnOk result (IsTrue (list_all is_spellable_state (map source_state_of states.now))) }
{
    for state in states {
        write_state(out, state)?;
    }
    Ok(())
}

// Writes the names after the first one.
fn write_more_names(out: &mut Vec<u8>, names: &[Name]) -> Result<(), AllocError>
    ensures text { OnOk result (out.new.items ≡ out.old.items ++ flat_map after_comma names.now) }
    ensures words { OnOk result (IsTrue (list_all is_name names.now)) }
{
    for name in names {
        write_two(out, b", ", name.bytes())?;
    }
    Ok(())
}

fn write_names(out: &mut Vec<u8>, names: &[Name]) -> Result<(), AllocError>
    ensures text { OnOk result (out.new.items ≡ out.old.items ++ comma_list names.now) }
    ensures words { OnOk result (IsTrue (list_all is_name names.now)) }
{
    match names {
        [] => Ok(()),
        [first, rest @ ..] => {
            out.extend_from_slice(first.bytes())?;
            write_more_names(out, rest)
        }
    }
}

fn role_word(role: Role) -> &'static [u8]
    ensures { result.now ≡ role_text role }
{
    match role {
        Role::Input => b"input ",
        Role::Output => b"output ",
        Role::Local => b"local ",
    }
}

// Writes the words before the names of a declaration.
fn write_kind(out: &mut Vec<u8>, role: Role, sort: Sort) -> Result<(), AllocError>
    ensures { OnOk result (out.new.items ≡ out.old.items ++ declaration_words role sort) }
{
    match sort {
        Sort::Scalar => out.extend_from_slice(role_word(role)),
        Sort::Array => {
            out.extend_from_slice(role_word(role))?;
            out.extend_from_slice(b"array ")
        }
        Sort::Port => out.extend_from_slice(b"port "),
    }
}

fn write_declaration(out: &mut Vec<u8>, decl: &Decl) -> Result<(), AllocError>
    ensures text { OnOk result (out.new.items ≡ out.old.items ++ declaration_text (declaration_of decl.now)) }
    ensures words { OnOk result (IsTrue (is_spellable_declaration (declaration_of decl.now))) }
{
    write_kind(out, decl.role, decl.sort)?;
    write_names(out, &decl.names)?;
    out.extend_from_slice(b";\n")
}

fn write_declarations(out: &mut Vec<u8>, decls: &[Decl]) -> Result<(), AllocError>
    ensures text { OnOk result (out.new.items ≡ out.old.items ++ flat_map declaration_text (map declaration_of decls.now)) }
    ensures words { OnOk result (IsTrue (list_all is_spellable_declaration (map declaration_of decls.now))) }
{
    for decl in decls {
        write_declaration(out, decl)?;
    }
    Ok(())
}

fn head(format: Format) -> &'static [u8]
    ensures { result.now ≡ head_text format }
{
    match format {
        Format::One => b"fsmd 1;\n",
        Format::Two => b"fsmd 2;\n",
    }
}

/// Writes the whole text.
pub fn write_source(out: &mut Vec<u8>, parts: &Parts) -> Result<(), AllocError>
    ensures text { OnOk result (out.new.items ≡ out.old.items ++ canonical (source_of parts.now)) }
    ensures words { OnOk result (IsTrue (is_spellable (source_of parts.now))) }
{
    out.extend_from_slice(head(format_for(parts)))?;
    write_declarations(out, &parts.decls)?;
    write_three(out, b"reset ", parts.reset.bytes(), b";\n")?;
    write_states(out, &parts.states)
}
