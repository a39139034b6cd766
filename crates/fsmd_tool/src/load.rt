//! Loads the files of a call: each alone, and two machines with the same inputs and outputs.

ghost use Rattle.std.specs.Prelude.{◌≡◌, ◌≤◌, length, map, IsTrue, IfOk, Some, OnOk, None};
ghost use Rattle.std.specs.Result.{IfErr};
ghost use Rattle.fsmd_words.specs.AskedWords.{asked_of_ask};
ghost use Rattle.fs_base.specs.Outside.{AreHeld};
ghost use Rattle.fs_model.specs.View.{source_of};
ghost use Rattle.fs_model.specs.WellFormed.{is_well_formed};
ghost use Rattle.fs_stores.specs.InputValues.{signatures_of, inputs_of, Serves};
ghost use Rattle.fs_pair.specs.Positions.{positions};
ghost use Rattle.cert_model.specs.View.{node_of};
ghost use Rattle.fsmd_replies.specs.AskedFiles.{file_word_of, operand};
ghost use Rattle.hls_bind.specs.Bindings.{IsBindingOf};
ghost use Rattle.hls_unit_counts.specs.Counts.{units_in};
ghost use Rattle.fsmd_answers.specs.MachineFiles.{SpellsMachine};
ghost use Rattle.fsmd_answers.specs.Unread.{IsUnread};
ghost use Rattle.fsmd_answers.specs.Refusals.{RefusesMachine, RefusesCertificate, SpellsCertificate, RefusesPair};
ghost use Rattle.fsmd_answers.specs.InputFiles.{signatures, RefusesInputs, SpellsInputs};
ghost use Rattle.fsmd_answers.specs.ProgramFiles.{IsOfProgramIn, RefusesProgram};
ghost use Rattle.fsmd_answers.specs.ScheduleFiles.{SpellUnits, RefusesUnits};
ghost use Rattle.fsmd_answers.specs.BindingFiles.{SpellsBinding, RefusesBinding};
ghost use Rattle.fsmd_answers.specs.Refusing.{WhereAnswered, IsLoaded};
ghost use Rattle.fsmd_tool.specs.Calls.{call, OnlyRead, LoadsFrom, LoadsAtMost, MayHold, IsCorrectInOrder};
ghost use Rattle.fsmd_tool.specs.Loading.{unread_refusal, GivesContent, RefusesNext, RefusesBoth};
ghost use Rattle.fs_pair.specs.Interfaces.{interface_fault};

use cert_model::cert::Cert;
use fs_ast::machine::Machine;
use fs_base::outside::{Files, LoadError};
use fs_model::limits::TEXT_LIMIT;
use fs_pair::positions::{FaceError, Pairing, same_interface};
use fs_stores::inputs::Inputs;
use fsmd_answers::bindings::read_binding;
use fsmd_answers::pair::Pair;
use fsmd_answers::programs::compile_program;
use fsmd_answers::reading::{CERT_LIMIT, Loaded, read_certificate, read_inputs, read_machine};
use fsmd_answers::refused::Refused;
use fsmd_answers::schedules::read_units;
use fsmd_replies::answer::{Answer, Operand};
use fsmd_replies::words::word_of;
use fsmd_words::asking::Ask;
use hls_bind::Binding;
use hls_unit_counts::Units;
use std::alloc::Global;

// The refusal of a file of which the bytes, at most so many, are not read.
fn refused_load(file: Operand, limit: u64, error: LoadError) -> Refused
    ensures { result ≡ unread_refusal file limit error }
{
    match error {
        LoadError::Failed => Refused::Answered(Answer::CannotRead { file }),
        LoadError::TooLong => Refused::Answered(Answer::TooLong { file, limit }),
        LoadError::NoMemory => Refused::NoMemory,
    }
}

// The bytes of a file, at most so many, or the answer that they are not read.
fn load_bytes<F: Files>(
    alloc: Global,
    file: Operand,
    limit: u64,
    ask: &Ask,
    files: &mut F,
) -> Result<Vec<u8>, Refused>
    ensures held { IfOk result
        (λ bytes. AreHeld ((F.told files.old).holds (file_word_of (Some (asked_of_ask ask.now)) file)) bytes.items) }
    ensures within { IfOk result (λ bytes. length bytes.items ≤ limit) }
    ensures unread { IfErr result
        (WhereAnswered
        (GivesContent (call (Some (asked_of_ask ask.now)) (F.told files.old) (F.told files.new)) file (IsUnread limit file))) }
    ensures only_read { OnlyRead (F.told files.old) (F.told files.new) }
    ensures loads { LoadsFrom (Some (asked_of_ask ask.now)) file.0 1 (F.told files.old) (F.told files.new) }
    ensures at_most { LoadsAtMost (Some (asked_of_ask ask.now)) file.0 1 (F.told files.old) (F.told files.new) }
{
    match files.load(alloc, word_of(ask, file), limit) {
        Ok(bytes) => Ok(bytes),
        Err(error) => Err(refused_load(file, limit, error)),
    }
}

/// What the file of a machine spells, or the answer that refuses the file.
pub fn load<F: Files>(
    alloc: Global,
    file: Operand,
    ask: &Ask,
    files: &mut F,
) -> Result<Loaded, Refused>
    ensures loaded { IfOk result
        (λ l. MayHold ((F.told files.old).holds (file_word_of (Some (asked_of_ask ask.now)) file))
        (IsLoaded (source_of l.parts) l.machine)) }
    ensures well_formed { IfOk result (λ l. IsTrue (is_well_formed (source_of l.parts))) }
    ensures refused { IfErr result
        (WhereAnswered
        (GivesContent (call (Some (asked_of_ask ask.now)) (F.told files.old) (F.told files.new)) file (RefusesMachine file))) }
    ensures only_read { OnlyRead (F.told files.old) (F.told files.new) }
    ensures loads { LoadsFrom (Some (asked_of_ask ask.now)) file.0 1 (F.told files.old) (F.told files.new) }
    ensures at_most { LoadsAtMost (Some (asked_of_ask ask.now)) file.0 1 (F.told files.old) (F.told files.new) }
{
    match files.load(alloc, word_of(ask, file), TEXT_LIMIT as u64) {
        Ok(bytes) => read_machine(alloc, file, bytes.as_slice()),
        Err(error) => Err(refused_load(file, TEXT_LIMIT as u64, error)),
    }
}

/// The inputs of a machine that a file spells, or the answer that refuses the file.
pub fn load_inputs<F: Files>(
    alloc: Global,
    file: Operand,
    ask: &Ask,
    machine: &Machine,
    files: &mut F,
) -> Result<Inputs, Refused>
    ensures spells { IfOk result
        (λ i. MayHold ((F.told files.old).holds (file_word_of (Some (asked_of_ask ask.now)) file))
        (SpellsInputs machine.now (inputs_of i))) }
    ensures signatures { IfOk result (λ i. signatures_of i ≡ signatures machine.now) }
    ensures serves { IfOk result (λ i. Serves (signatures_of i) machine.now) }
    ensures refused { IfErr result
        (WhereAnswered
        (GivesContent (call (Some (asked_of_ask ask.now)) (F.told files.old) (F.told files.new)) file
        (RefusesInputs machine.now file))) }
    ensures only_read { OnlyRead (F.told files.old) (F.told files.new) }
    ensures loads { LoadsFrom (Some (asked_of_ask ask.now)) file.0 1 (F.told files.old) (F.told files.new) }
    ensures at_most { LoadsAtMost (Some (asked_of_ask ask.now)) file.0 1 (F.told files.old) (F.told files.new) }
{
    let bytes = load_bytes(alloc, file, TEXT_LIMIT as u64, ask, files)?;
    read_inputs(alloc, file, bytes.as_slice(), machine)
}

/// The certificate of two machines that a file spells, or the answer that refuses the file.
pub fn load_certificate<F: Files>(
    alloc: Global,
    file: Operand,
    ask: &Ask,
    a: &Machine,
    b: &Machine,
    p: &Pairing,
    files: &mut F,
) -> Result<Cert, Refused>
    requires { p.now ≡ positions a.now b.now }
    ensures spells { IfOk result
        (λ c. MayHold ((F.told files.old).holds (file_word_of (Some (asked_of_ask ask.now)) file))
        (SpellsCertificate a.now b.now (map node_of c.nodes.items))) }
    ensures refused { IfErr result
        (WhereAnswered
        (GivesContent (call (Some (asked_of_ask ask.now)) (F.told files.old) (F.told files.new)) file
        (RefusesCertificate a.now b.now file))) }
    ensures only_read { OnlyRead (F.told files.old) (F.told files.new) }
    ensures loads { LoadsFrom (Some (asked_of_ask ask.now)) file.0 1 (F.told files.old) (F.told files.new) }
    ensures at_most { LoadsAtMost (Some (asked_of_ask ask.now)) file.0 1 (F.told files.old) (F.told files.new) }
{
    let bytes = load_bytes(alloc, file, CERT_LIMIT, ask, files)?;
    read_certificate(alloc, file, bytes, a, b, p)
}

/// The canonical text of the parts to which the program that a file spells is compiled, or the answer that refuses the file.
pub fn load_compiled<F: Files>(
    alloc: Global,
    file: Operand,
    ask: &Ask,
    files: &mut F,
) -> Result<Answer, Refused>
    ensures compiled { IfOk result
        (λ answer. MayHold ((F.told files.old).holds (file_word_of (Some (asked_of_ask ask.now)) file))
        (λ bytes. IsOfProgramIn bytes answer)) }
    ensures refused { IfErr result
        (WhereAnswered
        (GivesContent (call (Some (asked_of_ask ask.now)) (F.told files.old) (F.told files.new)) file (RefusesProgram file))) }
    ensures only_read { OnlyRead (F.told files.old) (F.told files.new) }
    ensures loads { LoadsFrom (Some (asked_of_ask ask.now)) file.0 1 (F.told files.old) (F.told files.new) }
    ensures at_most { LoadsAtMost (Some (asked_of_ask ask.now)) file.0 1 (F.told files.old) (F.told files.new) }
{
    let bytes = load_bytes(alloc, file, TEXT_LIMIT as u64, ask, files)?;
    compile_program(alloc, file, bytes.as_slice())
}

/// The unit counts that a file spells, or the answer that refuses the file.
pub fn load_units<F: Files>(
    alloc: Global,
    file: Operand,
    ask: &Ask,
    files: &mut F,
) -> Result<Units, Refused>
    ensures spell { IfOk result
        (λ u. MayHold ((F.told files.old).holds (file_word_of (Some (asked_of_ask ask.now)) file)) (SpellUnits (units_in u))) }
    ensures refused { IfErr result
        (WhereAnswered
        (GivesContent (call (Some (asked_of_ask ask.now)) (F.told files.old) (F.told files.new)) file (RefusesUnits file))) }
    ensures only_read { OnlyRead (F.told files.old) (F.told files.new) }
    ensures loads { LoadsFrom (Some (asked_of_ask ask.now)) file.0 1 (F.told files.old) (F.told files.new) }
    ensures at_most { LoadsAtMost (Some (asked_of_ask ask.now)) file.0 1 (F.told files.old) (F.told files.new) }
{
    let bytes = load_bytes(alloc, file, TEXT_LIMIT as u64, ask, files)?;
    read_units(alloc, file, bytes.as_slice())
}

/// The binding that a file gives a machine, or the answer that refuses the file.
pub fn load_binding<F: Files>(
    alloc: Global,
    file: Operand,
    ask: &Ask,
    machine: &Machine,
    files: &mut F,
) -> Result<Binding, Refused>
    ensures spells { IfOk result
        (λ b. MayHold ((F.told files.old).holds (file_word_of (Some (asked_of_ask ask.now)) file))
        (SpellsBinding machine.now b)) }
    ensures of_machine { IfOk result (λ b. IsBindingOf machine.now.variables b) }
    ensures refused { IfErr result
        (WhereAnswered
        (GivesContent (call (Some (asked_of_ask ask.now)) (F.told files.old) (F.told files.new)) file
        (RefusesBinding machine.now file))) }
    ensures only_read { OnlyRead (F.told files.old) (F.told files.new) }
    ensures loads { LoadsFrom (Some (asked_of_ask ask.now)) file.0 1 (F.told files.old) (F.told files.new) }
    ensures at_most { LoadsAtMost (Some (asked_of_ask ask.now)) file.0 1 (F.told files.old) (F.told files.new) }
{
    let bytes = load_bytes(alloc, file, TEXT_LIMIT as u64, ask, files)?;
    read_binding(alloc, file, bytes.as_slice(), machine)
}

/// The machine that a file spells, with the same inputs and outputs as one before it, and the positions of both.
#[derive(Drop)]
pub struct Next {
    pub machine: Machine,
    pub pairing: Pairing,
}

// The positions of two machines, or the answer that they have other inputs or outputs.
fn pairing_of(alloc: Global, left: &Machine, right: &Machine) -> Result<Pairing, Refused>
    ensures alike { IfOk result (λ _. interface_fault left.now right.now ≡ None) }
    ensures paired { IfOk result (λ pairing. pairing ≡ positions left.now right.now) }
    ensures refused { IfErr result (WhereAnswered (RefusesPair left.now right.now)) }
{
    match same_interface(alloc, left, right) {
        Ok(pairing) => Ok(pairing),
        Err(FaceError::Interface { name }) => Err(Refused::Answered(Answer::Interfaces { name })),
        Err(FaceError::NoMemory) => Err(Refused::NoMemory),
    }
}

/// Loads the file of a machine with the same inputs and outputs as one before it, or answers the first refusal: of the file, and
/// then that the machines have other inputs or outputs.
pub fn load_next<F: Files>(
    alloc: Global,
    file: Operand,
    ask: &Ask,
    left: &Machine,
    files: &mut F,
) -> Result<Next, Refused>
    ensures spells { IfOk result (λ n. MayHold ((F.told files.old).holds (file_word_of (Some (asked_of_ask ask.now)) file))
        (SpellsMachine n.machine)) }
    ensures alike { IfOk result (λ n. interface_fault left.now n.machine ≡ None) }
    ensures paired { IfOk result (λ n. n.pairing ≡ positions left.now n.machine) }
    ensures refused { IfErr result (WhereAnswered (IsCorrectInOrder (RefusesNext left.now) file.0
        (call (Some (asked_of_ask ask.now)) (F.told files.old) (F.told files.new)))) }
    ensures only_read { OnlyRead (F.told files.old) (F.told files.new) }
    ensures loads { LoadsFrom (Some (asked_of_ask ask.now)) file.0 1 (F.told files.old) (F.told files.new) }
    ensures at_most { LoadsAtMost (Some (asked_of_ask ask.now)) file.0 1 (F.told files.old) (F.told files.new) }
{
    let Loaded { machine, .. } = load(alloc, file, ask, files)?;
    let pairing = pairing_of(alloc, left, &machine)?;
    Ok(Next { machine, pairing })
}

/// Loads the first two files of a call, the first one first, or answers the first refusal: of a file, and then that the machines
/// have other inputs or outputs.
pub fn load_pair<F: Files>(alloc: Global, ask: &Ask, files: &mut F) -> Result<Pair, Refused>
    ensures left { IfOk result (λ p. MayHold ((F.told files.old).holds (file_word_of (Some (asked_of_ask ask.now)) (operand 0)))
        (SpellsMachine p.left)) }
    ensures right { IfOk result (λ p. MayHold ((F.told files.old).holds (file_word_of (Some (asked_of_ask ask.now)) (operand 1)))
        (SpellsMachine p.right)) }
    ensures alike { IfOk result (λ p. interface_fault p.left p.right ≡ None) }
    ensures paired { IfOk result (λ p. p.pairing ≡ positions p.left p.right) }
    ensures refused { IfErr result (WhereAnswered (IsCorrectInOrder RefusesBoth 0
        (call (Some (asked_of_ask ask.now)) (F.told files.old) (F.told files.new)))) }
    ensures only_read { OnlyRead (F.told files.old) (F.told files.new) }
    ensures loads { OnOk result (LoadsFrom (Some (asked_of_ask ask.now)) 0 2 (F.told files.old) (F.told files.new)) }
    ensures at_most { LoadsAtMost (Some (asked_of_ask ask.now)) 0 2 (F.told files.old) (F.told files.new) }
{
    let Loaded { machine: left, .. } = load(alloc, Operand(0), ask, files)?;
    let Next { machine, pairing } = load_next(alloc, Operand(1), ask, &left, files)?;
    Ok(Pair {
        left,
        right: machine,
        pairing,
    })
}
