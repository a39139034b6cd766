//! Equations as members of an object.

ghost use Rattle.std.specs.Prelude.{◌≡◌, map, string_bytes, IfOk, OnOk};
ghost use Rattle.std.specs.List.{AllByRecursion};
ghost use Rattle.serde_json.specs.Data.{string, object, no_members, put as with_member};
ghost use Rattle.serde_json.specs.View.{view, members_view};
ghost use Rattle.nf_terms.specs.Forms.{IsNormalForm};
ghost use Rattle.sym_facts.specs.View.{position_in};
ghost use Rattle.term_text.specs.TermTexts.{symbol_text};
ghost use Rattle.cert_writer.specs.WrittenCertificates.{form_written, with_equation_member, equations_written};
ghost use Rattle.cert_model.specs.Kept.{IsNormalEquation};
ghost use Rattle.cert_writer.specs.View.{names_in};

use crate::names::MachineNames;
use crate::texts::text_of;
use nf_terms::form::Nf;
use nf_terms::stop::NoMemory;
use nf_terms::tree::Pos;
use serde_json::{Map, Value};
use std::alloc::Global;
use sym_facts::fact::FactPosition;
use term_writer::writer::{write_arr, write_poly, write_seq, write_symbol};

/// About as many bytes as a unit of size takes.
const BYTES_OF_UNIT: u64 = 8;

// The bytes of a normal form.
fn form_bytes(alloc: Global, names: &MachineNames<'_>, form: &Nf) -> Result<Vec<u8>, NoMemory>
    ensures written { IfOk result (λ out. out.items ≡ form_written (names_in names.now) form.now) }
    ensures normal { IsNormalForm form.now }
{
    let mut out = Vec::with_capacity(alloc, (BYTES_OF_UNIT * form.size()) as usize)?;
    match form {
        Nf::Num(number) => write_poly(&mut out, names, number)?,
        Nf::Arr(array) => write_arr(&mut out, names, array)?,
        Nf::Seq(list) => write_seq(&mut out, names, list)?,
    }
    Ok(out)
}

// The text of a normal form.
fn form_text(alloc: Global, names: &MachineNames<'_>, form: &Nf) -> Result<String, NoMemory>
    ensures written { IfOk result (λ text. string_bytes text ≡ form_written (names_in names.now) form.now) }
    ensures normal { IsNormalForm form.now }
{
    names.hold();
    let bytes = form_bytes(alloc, names, form)?;
    Ok(text_of(bytes))
}

// The key of a position.
fn key_of(alloc: Global, names: &MachineNames<'_>, pos: Pos) -> Result<String, NoMemory>
    ensures { IfOk result (λ key. string_bytes key ≡ symbol_text pos.side (names_in names.now pos)) }
{
    names.hold();
    let mut out = Vec::new(alloc);
    write_symbol(&mut out, names, pos)?;
    Ok(text_of(out))
}

// Puts a text under a key.
#[tactic(auto, using(crate::proofs::Members::text_put))]
fn put_text(members: &mut Map<String, Value>, key: String, text: String) -> Result<(), NoMemory>
    ensures { OnOk result
        (members_view members.new.entries ≡ with_member (string_bytes key) (string (string_bytes text))
        (members_view members.old.entries)) }
{
    members.insert(key, Value::String(text))?;
    Ok(())
}

// Puts the equation of a position under its key.
fn put_equation(
    alloc: Global,
    names: &MachineNames<'_>,
    members: &mut Map<String, Value>,
    position: &FactPosition,
) -> Result<(), NoMemory>
    ensures put { OnOk result
        (members_view members.new.entries ≡ with_equation_member (names_in names.now) position.now.pos
        (position_in position.now).equation (members_view members.old.entries)) }
    ensures normal { OnOk result (IsNormalEquation (position_in position.now).equation) }
{
    match &position.equation {
        None => Ok(()),
        Some(shared) => {
            let key = key_of(alloc, names, position.pos)?;
            let text = form_text(alloc, names, shared.form())?;
            put_text(members, key, text)
        }
    }
}

/// The object of the equations. The one refusal is out of memory.
pub fn equations_value(
    alloc: Global,
    names: &MachineNames<'_>,
    positions: &[FactPosition],
) -> Result<Value, NoMemory>
    ensures written { IfOk result
        (λ v. view v ≡ object (equations_written (names_in names.now) no_members (map position_in positions.now))) }
    ensures normal { IfOk result (λ v. AllByRecursion (λ q. IsNormalEquation q.equation) (map position_in positions.now)) }
{
    let mut members = Map::new(alloc);
    for position in positions {
        put_equation(alloc, names, &mut members, position)?;
    }
    Ok(Value::Object(members))
}
