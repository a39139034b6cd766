//! Reads the bytes of a file, and builds their machine.

ghost use Rattle.std.specs.Prelude.{◌≡◌, ◌≤◌, List, ℕ, length, map, IsTrue, IfOk, string_bytes};
ghost use Rattle.std.specs.Result.{IfErr};
ghost use Rattle.fs_model.specs.Limits.{most_text_bytes};
ghost use Rattle.fs_model.specs.Machines.{Fsmd};
ghost use Rattle.fs_model.specs.View.{source_of};
ghost use Rattle.fs_model.specs.WellFormed.{is_well_formed};
ghost use Rattle.fs_stores.specs.InputValues.{signatures_of, inputs_of, Serves};
ghost use Rattle.fs_inputs.specs.Refusals.{IsRefusedAsInputs};
ghost use Rattle.fs_pair.specs.Positions.{positions};
ghost use Rattle.cert_model.specs.View.{node_of};
ghost use Rattle.cert_writer.specs.CertificateLimits.{most_certificate_bytes};
ghost use Rattle.cert_text.specs.Refusals.{IsRefusedAsCertificate as IsRefusedFor};
ghost use Rattle.fsmd_replies.specs.declared.answer.Answer.TheVariants.{KeyRefused};
ghost use Rattle.fsmd_answers.specs.declared.refused.Refused.TheVariants.{Answered};
ghost use Rattle.fsmd_answers.specs.Readings.{Readable};
ghost use Rattle.fsmd_answers.specs.Refusals.{RefusesMachine, RefusesCertificate, SpellsCertificate};
ghost use Rattle.fsmd_answers.specs.InputFiles.{signatures, RefusesInputs, SpellsInputs};
ghost use Rattle.fsmd_answers.specs.Refusing.{WhereAnswered, IsLoaded};

use crate::refused::Refused;
use cert_model::cert::Cert;
use cert_text::faults::CertError;
use cert_text::reader::read_owned_cert;
use fs_ast::build::BuildError;
use fs_ast::machine::Machine;
use fs_grammar::fault::ReadError;
use fs_inputs::{InputError, read_inputs as read_input_values};
use fs_model::parts::Parts;
use fs_pair::positions::Pairing;
use fs_stores::inputs::Inputs;
use fs_text::read_parts;
use fsmd_replies::answer::{Answer, KeyFault, Lines, Operand};
use std::alloc::Global;

/// The most bytes of a certificate that are read.
pub const CERT_LIMIT: u64 = 268_435_456;

/// What the text in a file spells.
#[derive(Drop)]
pub struct Loaded {
    pub parts: Parts,
    pub machine: Machine,
}

/// What the bytes of a file spell as a machine, or the answer that refuses them.
pub fn read_machine(alloc: Global, file: Operand, bytes: &[u8]) -> Result<Loaded, Refused>
    requires { length bytes.now ≤ most_text_bytes }
    ensures loaded { IfOk result (λ l. IsLoaded (source_of l.parts) l.machine bytes.now) }
    ensures well_formed { IfOk result (λ l. IsTrue (is_well_formed (source_of l.parts))) }
    ensures refused { IfErr result (WhereAnswered (RefusesMachine file (Readable bytes.now))) }
{
    let parts = match read_parts(alloc, bytes) {
        Ok(parts) => parts,
        Err(ReadError::Text(fault)) => {
            return Err(Refused::Answered(Answer::TextRefused { file, fault }));
        }
        Err(ReadError::NoMemory) => return Err(Refused::NoMemory),
    };
    match Machine::build(alloc, &parts) {
        Ok(machine) => Ok(Loaded { parts, machine }),
        Err(BuildError::Check(fault)) => {
            Err(Refused::Answered(Answer::CheckRefused { file, fault }))
        }
        Err(BuildError::NoMemory) => Err(Refused::NoMemory),
    }
}

// The refusal of a file with this fault at a key.
pub(crate) fn refused_at(file: Operand, fault: KeyFault, key: String) -> Refused
    ensures { result ≡ Answered (KeyRefused file fault (string_bytes key)) }
{
    let key = Lines::of(key.into_bytes());
    Refused::Answered(Answer::KeyRefused { file, fault, key })
}

// The refusal of a file of inputs.
fn refused_inputs(file: Operand, error: InputError) -> Refused
    ensures { (m : Fsmd) (bytes : List ℕ) → length bytes ≤ most_text_bytes → IsRefusedAsInputs (signatures m) bytes error
        → WhereAnswered (RefusesInputs m file (Readable bytes)) result }
{
    match error {
        InputError::NotJson => Refused::Answered(Answer::NotJson { file }),
        InputError::Shape { name } => refused_at(file, KeyFault::Shape, name),
        InputError::UnknownName { name } => refused_at(file, KeyFault::UnknownName, name),
        InputError::NumberTooBig { name } => refused_at(file, KeyFault::NumberTooBig, name),
        InputError::NoMemory => Refused::NoMemory,
    }
}

/// The inputs of a machine that the bytes of a file spell, or the answer that refuses them.
pub fn read_inputs(
    alloc: Global,
    file: Operand,
    bytes: &[u8],
    machine: &Machine,
) -> Result<Inputs, Refused>
    requires { length bytes.now ≤ most_text_bytes }
    ensures spells { IfOk result (λ i. SpellsInputs machine.now (inputs_of i) bytes.now) }
    ensures signatures { IfOk result (λ i. signatures_of i ≡ signatures machine.now) }
    ensures serves { IfOk result (λ i. Serves (signatures_of i) machine.now) }
    ensures refused { IfErr result (WhereAnswered (RefusesInputs machine.now file (Readable bytes.now))) }
{
    match read_input_values(alloc, bytes, machine) {
        Ok(inputs) => Ok(inputs),
        Err(error) => Err(refused_inputs(file, error)),
    }
}

// The refusal of a file of a certificate.
fn refused_certificate(file: Operand, error: CertError) -> Refused
    ensures { (a b : Fsmd) (bytes : List ℕ) → length bytes ≤ most_certificate_bytes → IsRefusedFor a b bytes error
        → WhereAnswered (RefusesCertificate a b file (Readable bytes)) result }
{
    match error {
        CertError::NoMemory => Refused::NoMemory,
        _ => Refused::Answered(Answer::CertRefused { file, error }),
    }
}

/// The certificate of two machines that the bytes of a file spell, or the answer that refuses them. The bytes are let go once
/// the nodes are read.
pub fn read_certificate(
    alloc: Global,
    file: Operand,
    bytes: Vec<u8>,
    a: &Machine,
    b: &Machine,
    p: &Pairing,
) -> Result<Cert, Refused>
    requires few { length bytes.items ≤ most_certificate_bytes }
    requires paired { p.now ≡ positions a.now b.now }
    ensures spells { IfOk result (λ c. SpellsCertificate a.now b.now (map node_of c.nodes.items) bytes.items) }
    ensures refused { IfErr result (WhereAnswered (RefusesCertificate a.now b.now file (Readable bytes.items))) }
{
    match read_owned_cert(alloc, bytes, a, b, p) {
        Ok(cert) => Ok(cert),
        Err(error) => Err(refused_certificate(file, error)),
    }
}
