//! Conditions as items of an array.

ghost use Rattle.std.specs.Prelude.{◌≡◌, true, map, string_bytes, IfOk, IsTrue};
ghost use Rattle.std.specs.List.{list_all};
ghost use Rattle.serde_json.specs.Data.{array, string};
ghost use Rattle.serde_json.specs.View.{view};
ghost use Rattle.nf_rel.specs.View.{literal_in};
ghost use Rattle.sym_facts.specs.Facts.{may_be_kept};
ghost use Rattle.cert_json.specs.WrittenJson.{texts};
ghost use Rattle.cert_writer.specs.WrittenCertificates.{literal_bytes};
ghost use Rattle.cert_writer.specs.View.{names_in};

use crate::names::MachineNames;
use crate::texts::text_of;
use nf_rel::literals::NLit;
use nf_terms::stop::NoMemory;
use serde_json::Value;
use std::alloc::Global;
use term_writer::writer::write_literal;

// The text of a literal.
#[tactic(auto, using(crate::proofs::Kept::not_true))]
fn literal_text(alloc: Global, names: &MachineNames<'_>, literal: &NLit) -> Result<String, NoMemory>
    requires { may_be_kept (literal_in literal.now) ≡ true }
    ensures { IfOk result (λ text. string_bytes text ≡ literal_bytes (names_in names.now) (literal_in literal.now)) }
{
    names.hold();
    let mut out = Vec::new(alloc);
    write_literal(&mut out, names, literal)?;
    Ok(text_of(out))
}

// A literal that is not true.
fn value_of(alloc: Global, names: &MachineNames<'_>, literal: &NLit) -> Result<Value, NoMemory>
    requires { may_be_kept (literal_in literal.now) ≡ true }
    ensures { IfOk result (λ v. view v ≡ string (literal_bytes (names_in names.now) (literal_in literal.now))) }
{
    Ok(Value::String(literal_text(alloc, names, literal)?))
}

/// The array of literals that a fact may have. The one refusal is out of memory.
pub fn conditions_value(
    alloc: Global,
    names: &MachineNames<'_>,
    literals: &[NLit],
) -> Result<Value, NoMemory>
    requires { IsTrue (list_all may_be_kept (map literal_in literals.now)) }
    ensures { IfOk result (λ v. view v ≡ array (texts (map (literal_bytes (names_in names.now)) (map literal_in literals.now)))) }
{
    let mut out = Vec::new(alloc);
    for literal in literals {
        out.push(value_of(alloc, names, literal)?)?;
    }
    Ok(Value::Array(out))
}
