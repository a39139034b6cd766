//! The lines of facts.

ghost use Rattle.std.specs.Prelude.{◌≡◌, ◌++◌, OnOk, map};
ghost use Rattle.std.specs.List.{flat_map};
ghost use Rattle.nf_rel.specs.View.{literal_in};
ghost use Rattle.sym_facts.specs.View.{position_in};
ghost use Rattle.cert_writer.specs.WrittenCertificates.{form_written};
ghost use Rattle.show_fact_text.specs.FactLines.{literal_text, position_line, condition_line, fact_lines};
ghost use Rattle.show_fact_text.specs.View.{side_names_in};

use crate::names::SideNames;
use nf_rel::literals::NLit;
use nf_terms::form::Nf;
use nf_terms::stop::NoMemory;
use sym_facts::fact::{Fact, FactPosition};
use term_writer::writer::{write_arr, write_literal, write_poly, write_seq, write_symbol};

/// Adds bytes. The one refusal is out of memory.
pub fn write_bytes(out: &mut Vec<u8>, bytes: &[u8]) -> Result<(), NoMemory>
    ensures { OnOk result (out.new.items ≡ out.old.items ++ bytes.now) }
{
    out.extend_from_slice(bytes)?;
    Ok(())
}

/// Adds a normal form. The one refusal is out of memory.
pub fn write_form(out: &mut Vec<u8>, names: &SideNames<'_>, form: &Nf) -> Result<(), NoMemory>
    ensures { OnOk result (out.new.items ≡ out.old.items ++ form_written (side_names_in names.now) form.now) }
{
    match form {
        Nf::Num(number) => write_poly(out, names, number),
        Nf::Arr(array) => write_arr(out, names, array),
        Nf::Seq(list) => write_seq(out, names, list),
    }
}

/// Adds the equation of a position on a line behind a text, and nothing where the position is free. The one refusal is out of
/// memory.
pub fn write_position(
    out: &mut Vec<u8>,
    before: &[u8],
    names: &SideNames<'_>,
    position: &FactPosition,
) -> Result<(), NoMemory>
    ensures { OnOk result (out.new.items ≡ out.old.items
        ++ position_line before.now (side_names_in names.now) (position_in position.now)) }
{
    let Some(shared) = &position.equation else {
        return Ok(());
    };
    write_bytes(out, before)?;
    write_symbol(out, names, position.pos)?;
    write_bytes(out, b" = ")?;
    write_form(out, names, shared.form())?;
    write_bytes(out, b"\n")
}

// Adds a literal.
fn write_condition_text(
    out: &mut Vec<u8>,
    names: &SideNames<'_>,
    literal: &NLit,
) -> Result<(), NoMemory>
    ensures { OnOk result (out.new.items ≡ out.old.items ++ literal_text (side_names_in names.now) (literal_in literal.now)) }
{
    match literal {
        NLit::True => write_bytes(out, b"true"),
        NLit::False | NLit::Is(_) => write_literal(out, names, literal),
    }
}

/// Adds a literal on a line behind a text. The one refusal is out of memory.
pub fn write_condition(
    out: &mut Vec<u8>,
    before: &[u8],
    names: &SideNames<'_>,
    literal: &NLit,
) -> Result<(), NoMemory>
    ensures { OnOk result (out.new.items ≡ out.old.items
        ++ condition_line before.now (side_names_in names.now) (literal_in literal.now)) }
{
    write_bytes(out, before)?;
    write_condition_text(out, names, literal)?;
    write_bytes(out, b"\n")
}

// Adds the equations of positions.
fn write_positions(
    out: &mut Vec<u8>,
    before: &[u8],
    names: &SideNames<'_>,
    positions: &[FactPosition],
) -> Result<(), NoMemory>
    ensures { OnOk result (out.new.items ≡ out.old.items
        ++ flat_map (position_line before.now (side_names_in names.now)) (map position_in positions.now)) }
{
    for position in positions {
        write_position(out, before, names, position)?;
    }
    Ok(())
}

// Adds literals.
fn write_conditions(
    out: &mut Vec<u8>,
    before: &[u8],
    names: &SideNames<'_>,
    literals: &[NLit],
) -> Result<(), NoMemory>
    ensures { OnOk result (out.new.items ≡ out.old.items
        ++ flat_map (condition_line before.now (side_names_in names.now)) (map literal_in literals.now)) }
{
    for literal in literals {
        write_condition(out, before, names, literal)?;
    }
    Ok(())
}

/// Adds the lines of a fact, each behind a text: its equations in order, and then its literals. The one refusal is out of memory.
pub fn write_fact(
    out: &mut Vec<u8>,
    before: &[u8],
    names: &SideNames<'_>,
    fact: &Fact,
) -> Result<(), NoMemory>
    ensures { OnOk result (out.new.items ≡ out.old.items ++ fact_lines before.now (side_names_in names.now) fact.now) }
{
    write_positions(out, before, names, fact.positions())?;
    write_conditions(out, before, names, fact.conds())
}
