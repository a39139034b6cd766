//! Laws of files that are refused, over the definitions alone. The functions do nothing: those that they call are laws.

ghost use Rattle.std.specs.Prelude.{◌≡◌, ◌+◌, ◌*◌, ℕ, true, List, Some, None};
ghost use Rattle.fsmd_words.specs.AskedWords.{Run, Compile, Schedule, Bind};
ghost use Rattle.fs_model.specs.Machines.{Fsmd};
ghost use Rattle.fs_model.specs.Source.{Source};
ghost use Rattle.fs_rules.specs.MachineOfParts.{machine_of};
ghost use Rattle.fs_ast.specs.StoredBranches.{state_name_of};
ghost use Rattle.fs_pair.specs.Interfaces.{interface_fault};
ghost use Rattle.hls_unit_counts.specs.declared.units.Unit.{Unit as Kind};
ghost use Rattle.hls_unit_counts.specs.Counts.{Units};
ghost use Rattle.hls_block_filling.specs.Over.{over_in};
ghost use Rattle.fsmd_replies.specs.declared.answer.Status.TheVariants.{BadInput};
ghost use Rattle.fsmd_replies.specs.declared.answer.Answer.{Answer};
ghost use Rattle.fsmd_replies.specs.declared.answer.Answer.TheVariants.{Over};
ghost use Rattle.fsmd_replies.specs.AskedFiles.{operand, is_verify};
ghost use Rattle.fsmd_tool.specs.MachineFiles.{SpellsParts, SpellsMachine};
ghost use Rattle.fsmd_tool.specs.Refusals.{RefusesMachine, RefusesPair, RefusesCertificate};
ghost use Rattle.fsmd_tool.specs.InputFiles.{RefusesInputs};
ghost use Rattle.fsmd_tool.specs.ProgramFiles.{RefusesProgram};
ghost use Rattle.fsmd_tool.specs.ScheduleFiles.{SpellUnits, RefusesUnits};
ghost use Rattle.fsmd_tool.specs.BindingFiles.{RefusesBinding};
ghost use Rattle.fsmd_tool.specs.Calls.{Call};
ghost use Rattle.fsmd_tool.specs.SinkReplies.{Put};
ghost use Rattle.fsmd_tool.specs.Correct.{Outcome};
ghost use Rattle.fsmd_tool_laws.specs.Settled.{IsKnown, SpellPair, AreSettledUpToRefused};
ghost use Rattle.fsmd_tool_laws.specs.FirstRefusals.{opens_machine, opens_pair, runs_pair, IsKnownToBeRefused, IsFirstRefusal};
ghost use Rattle.fsmd_tool_laws.specs.FirstRefusals.{HasFirstRefusal, HoldUpToLink, refusal_at, EndsByRefusal};

use cert_text::laws::{certificates_are_read_in_one_way, texts_are_read};

/// Refusals are told exactly. A call that has a first refusal ends with the line of this refusal and the status of bad input,
/// whatever the files behind hold, and nothing is stored; or there was no memory, or the sink failed. And where the files are
/// settled up to the one that is refused, a call ends with this status only where it has a first refusal.
pub fn first_refusals_get_their_lines()
    ensures line { (g : Call) (p : Put) (x : Answer) → IsFirstRefusal g x → Outcome g p → EndsByRefusal x g p }
    ensures only { (g : Call) (p : Put) → AreSettledUpToRefused g → Outcome g p → p.status ≡ BadInput → HasFirstRefusal g }
{
    certificates_are_read_in_one_way();
    texts_are_read();
}

/// A file that is known to be refused has the first refusal, where those before it are known to spell what they are to: as that
/// of a machine, by its text, the first rule that is broken or its length, the first file, and the second of two; two machines,
/// by their interfaces; a certificate; inputs of one machine and of two; unit counts, also where a transition uses more of a
/// unit; a binding; a program; and of a chain the machine, the interfaces or the certificate of the next link, told as those of
/// the link.
pub fn known_files_have_first_refusals()
    ensures machine { (g : Call) (x : Answer) → opens_machine g.asked ≡ true → IsKnownToBeRefused g 0 RefusesMachine x
        → IsFirstRefusal g x }
    ensures second { (g : Call) (x : Answer) (a : Fsmd) → opens_pair g.asked ≡ true → IsKnown g 0 (SpellsMachine a)
        → IsKnownToBeRefused g 1 RefusesMachine x → IsFirstRefusal g x }
    ensures interface { (g : Call) (x : Answer) (a b : Fsmd) → opens_pair g.asked ≡ true → IsKnown g 0 (SpellsMachine a)
        → IsKnown g 1 (SpellsMachine b) → RefusesPair a b x → IsFirstRefusal g x }
    ensures certificate { (g : Call) (x : Answer) (a b : Fsmd) → is_verify g.asked ≡ true → SpellPair g a b
        → IsKnownToBeRefused g 2 (RefusesCertificate a b) x → IsFirstRefusal g x }
    ensures inputs { (g : Call) (x : Answer) (machine inputs : List ℕ) (steps : ℕ) (m : Fsmd)
        → g.asked ≡ Some (Run machine inputs steps) → IsKnown g 0 (SpellsMachine m) → IsKnownToBeRefused g 1 (RefusesInputs m) x
        → IsFirstRefusal g x }
    ensures inputs_of_pair { (g : Call) (x : Answer) (a b : Fsmd) → runs_pair g.asked ≡ true → SpellPair g a b
        → IsKnownToBeRefused g 2 (RefusesInputs a) x → IsFirstRefusal g x }
    ensures units { (g : Call) (x : Answer) (machine counts : List ℕ) (parts : Source)
        → g.asked ≡ Some (Schedule machine counts) → IsKnown g 0 (SpellsParts parts) → IsKnownToBeRefused g 1 RefusesUnits x
        → IsFirstRefusal g x }
    ensures too_few_units { (g : Call) (machine counts : List ℕ) (parts : Source) (units : Units) (state : ℕ) (kind : Kind)
        → g.asked ≡ Some (Schedule machine counts) → IsKnown g 0 (SpellsParts parts) → IsKnown g 1 (SpellUnits units)
        → over_in units (machine_of parts) ≡ Some (state, kind)
        → IsFirstRefusal g (Over (operand 1) (state_name_of (machine_of parts) state) kind) }
    ensures binding { (g : Call) (x : Answer) (machine registers : List ℕ) (parts : Source)
        → g.asked ≡ Some (Bind machine registers) → IsKnown g 0 (SpellsParts parts)
        → IsKnownToBeRefused g 1 (RefusesBinding (machine_of parts)) x → IsFirstRefusal g x }
    ensures program { (g : Call) (x : Answer) (file : List ℕ) → g.asked ≡ Some (Compile file)
        → IsKnownToBeRefused g 0 RefusesProgram x → IsFirstRefusal g x }
    ensures link_machine { (g : Call) (x : Answer) (links : ℕ) (last : Fsmd) → HoldUpToLink g links last
        → IsKnownToBeRefused g (2 * links + 1) RefusesMachine x → IsFirstRefusal g (refusal_at g.asked (links + 1) x) }
    ensures link_interface { (g : Call) (x : Answer) (links : ℕ) (last next : Fsmd) → HoldUpToLink g links last
        → IsKnown g (2 * links + 1) (SpellsMachine next) → RefusesPair last next x
        → IsFirstRefusal g (refusal_at g.asked (links + 1) x) }
    ensures link_certificate { (g : Call) (x : Answer) (links : ℕ) (last next : Fsmd) → HoldUpToLink g links last
        → IsKnown g (2 * links + 1) (SpellsMachine next) → interface_fault last next ≡ None
        → IsKnownToBeRefused g (2 * links + 2) (RefusesCertificate last next) x
        → IsFirstRefusal g (refusal_at g.asked (links + 1) x) }
{}
