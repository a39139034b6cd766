//! Laws of files and answers, over the definitions alone. The functions do nothing: those that they call are laws.

ghost use Rattle.std.specs.Prelude.{◌≡◌, ◌≢◌, ◌+◌, ◌*◌, ◌<◌, ◌≤◌, ℕ, Bool, IsTrue, List, length};
ghost use Rattle.std.specs.Prelude.{Option, Some, true, false, is_some, codes};
ghost use Rattle.fsmd_words.specs.AskedWords.{Asked, Run, Replay, Fmt, Cuts, Generate, Compile, Schedule, Bind, Shrink, Chain};
ghost use Rattle.fs_model.specs.Limits.{most_text_bytes};
ghost use Rattle.fs_model.specs.Machines.{Fsmd};
ghost use Rattle.fs_model.specs.Runs.{Inputs};
ghost use Rattle.fs_model.specs.Source.{Source};
ghost use Rattle.fs_rules.specs.MachineOfParts.{machine_of};
ghost use Rattle.fs_grammar.specs.declared.fault.TextFault.{TextFault};
ghost use Rattle.fs_rules.specs.declared.check.CheckFault.{CheckFault};
ghost use Rattle.fs_write.specs.Canonical.{canonical};
ghost use Rattle.fs_cut.specs.PathTexts.{paths_text};
ghost use Rattle.fs_pair.specs.Interfaces.{interface_fault};
ghost use Rattle.fs_trials.specs.Candidates.{stated_count};
ghost use Rattle.fs_trials.specs.Differences.{DiffersAt};
ghost use Rattle.cert_bisimulation.specs.Tables.{Node};
ghost use Rattle.sym_facts.specs.Facts.{Fact};
ghost use Rattle.cert_model.specs.Obligations.{Yes, verdict_on};
ghost use Rattle.cert_facts.specs.declared.faults.CertError.{CertError};
ghost use Rattle.cert_writer.specs.WrittenCertificates.{certificate_text};
ghost use Rattle.fsmd_replies.specs.SearchTables.{machines};
ghost use Rattle.search_laws.specs.SearchOutcomes.{IsClosedWith};
ghost use Rattle.search_laws.specs.Certificates.{IsCertificate};
ghost use Rattle.fsmd_tool.specs.PairAnswers.{ShowsSame};
ghost use Rattle.hls_program_parts.specs.Programs.{Program};
ghost use Rattle.hls_unit_counts.specs.Counts.{Units};
ghost use Rattle.fsmd_synthesis_answers.specs.BindingAnswers.{Binding};
ghost use Rattle.fsmd_replies.specs.declared.answer.Status.TheVariants.{Differ};
ghost use Rattle.fsmd_replies.specs.declared.answer.Answer.{Answer};
ghost use Rattle.fsmd_replies.specs.declared.answer.Answer.TheVariants.{Text};
ghost use Rattle.fsmd_replies.specs.Statuses.{status_of};
ghost use Rattle.fsmd_replies.specs.AskedFiles.{files_of, cert_of, is_check, is_verify, compares, step_limit};
ghost use Rattle.fsmd_tool.specs.MachineFiles.{SpellsParts, SpellsMachine, IsTooLong, HasTextFault, HasCheckFault};
ghost use Rattle.fsmd_tool.specs.Readings.{Reading};
ghost use Rattle.fsmd_tool.specs.Refusals.{SpellsCertificate, HasCertFault};
ghost use Rattle.fsmd_tool.specs.InputFiles.{SpellsInputs};
ghost use Rattle.fsmd_tool.specs.ProgramFiles.{SpellsProgram, IsOfProgram};
ghost use Rattle.fsmd_tool.specs.ScheduleFiles.{SpellUnits, IsOfSchedule};
ghost use Rattle.fsmd_tool.specs.BindingFiles.{SpellsBinding, IsOfBinding};
ghost use Rattle.fsmd_tool.specs.ComparisonAnswers.{IsOfPair, IsOfLoops};
ghost use Rattle.fsmd_tool.specs.Verdicts.{IsJudged};
ghost use Rattle.fsmd_tool.specs.RunAnswers.{IsOfRun};
ghost use Rattle.fsmd_tool.specs.Replays.{IsOfReplay};
ghost use Rattle.fsmd_tool.specs.Shrinks.{IsOfShrink};
ghost use Rattle.fsmd_tool.specs.Links.{AtLink, links_of, IsOfChain};
ghost use Rattle.fsmd_tool.specs.Follows.{Follows};
ghost use Rattle.fsmd_tool.specs.Calls.{Call};
ghost use Rattle.fsmd_tool.specs.SinkReplies.{Put};
ghost use Rattle.fsmd_tool.specs.Correct.{IsCorrectAnswer, Outcome};
ghost use Rattle.fsmd_tool_laws.specs.Agreement.{Agree};
ghost use Rattle.fsmd_tool_laws.specs.Settled.{IsSettled, AreSettled, IsKnown, SpellPair, SpellLink, AreKnownToHold};
ghost use Rattle.fsmd_tool_laws.specs.Settled.{read_from, IsRefusedAsMachine, AreSettledUpToRefused};
ghost use Rattle.fsmd_tool_laws.specs.OneAnswer.{AreOne, SaySame};
ghost use Rattle.fsmd_tool_laws.specs.CallOutcomes.{NothingFailed, is_of_comparison, EndsBy};

use cert_text::laws::{certificates_are_read_in_one_way, texts_are_read};
use search_laws::laws::{
    certificates_of_closed_searches_hold, certificates_that_hold_are_small,
    written_certificates_that_hold_are_read,
};

/// Two machines get at most one answer, but for what may be answered where no stated candidate shows a difference and the search
/// is left open: any certificate that holds, or the line of the obstacle.
pub fn two_machines_get_one_answer()
    ensures { (limit : ℕ) (keeps : Bool) (a b : Fsmd) (x y : Answer) → IsOfPair limit keeps a b x → IsOfPair limit keeps a b y
        → AreOne a b x y }
{}

/// Where a stated candidate shows a difference of two machines, that is what they get: their status is `Differ`.
pub fn differences_are_told()
    ensures { (limit : ℕ) (keeps : Bool) (a b : Fsmd) (x : Answer) (j : ℕ) → j < stated_count a b → DiffersAt a b limit j
        → IsOfPair limit keeps a b x → status_of x ≡ Differ }
{}

/// A file spells at most one machine, and the parts of at most one, so with one canonical text and one list of paths, and is then
/// no file with a fault or too long.
pub fn a_file_spells_one_machine()
    ensures one { (bytes : List ℕ) (m n : Fsmd) → SpellsMachine m bytes → SpellsMachine n bytes → m ≡ n }
    ensures no_text_fault { (bytes : List ℕ) (m : Fsmd) (f : TextFault) → SpellsMachine m bytes → HasTextFault f bytes → ⊥ }
    ensures no_broken_rule { (bytes : List ℕ) (m : Fsmd) (f : CheckFault) → SpellsMachine m bytes → HasCheckFault f bytes → ⊥ }
    ensures not_too_long { (bytes : List ℕ) (m : Fsmd) → SpellsMachine m bytes → IsTooLong most_text_bytes bytes → ⊥ }
    ensures parts { (bytes : List ℕ) (p q : Source) → SpellsParts p bytes → SpellsParts q bytes → p ≡ q }
{}

/// A file has at most one fault: its first one as a text, or the first rule that its parts break, or its length.
pub fn a_file_has_one_fault()
    ensures text { (bytes : List ℕ) (f g : TextFault) → HasTextFault f bytes → HasTextFault g bytes → f ≡ g }
    ensures rule { (bytes : List ℕ) (f g : CheckFault) → HasCheckFault f bytes → HasCheckFault g bytes → f ≡ g }
    ensures not_both { (bytes : List ℕ) (f : TextFault) (g : CheckFault) → HasTextFault f bytes → HasCheckFault g bytes → ⊥ }
    ensures text_not_too_long { (bytes : List ℕ) (f : TextFault) → HasTextFault f bytes → IsTooLong most_text_bytes bytes → ⊥ }
    ensures rule_not_too_long { (bytes : List ℕ) (f : CheckFault) → HasCheckFault f bytes → IsTooLong most_text_bytes bytes → ⊥ }
{}

/// A file spells at most one certificate of two machines, or has at most one fault as one, and not both.
pub fn a_file_spells_one_certificate()
    ensures one { (a b : Fsmd) (bytes : List ℕ) (n k : List (Node Fact)) → SpellsCertificate a b n bytes
        → SpellsCertificate a b k bytes → n ≡ k }
    ensures fault { (a b : Fsmd) (bytes : List ℕ) (e f : CertError) → HasCertFault a b e bytes → HasCertFault a b f bytes
        → e ≡ f }
    ensures no_fault { (a b : Fsmd) (bytes : List ℕ) (n : List (Node Fact)) (e : CertError) → SpellsCertificate a b n bytes
        → HasCertFault a b e bytes → ⊥ }
{
    certificates_are_read_in_one_way();
    texts_are_read();
}

/// At most one answer follows from what was read of the files, where two readings agree on each file that both opened; and then
/// both are one reading. So it is for a file that fails to be read, too. Of machines that are compared, where no stated candidate
/// shows a difference and the search is left open, each answer may be any certificate that holds, or the line of the obstacle.
pub fn one_answer_follows()
    ensures compared { (o : Option Asked) (r s : Reading) (x y : Answer) → Agree r s → Follows o r x → Follows o s y
        → SaySame o s x y }
    ensures uncompared { (o : Option Asked) (r s : Reading) (x y : Answer) → compares o ≡ false → Agree r s → Follows o r x
        → Follows o s y → x ≡ y }
    ensures reading { (o : Option Asked) (r s : Reading) (x y : Answer) → Agree r s → Follows o r x → Follows o s y → r ≡ s }
{
    certificates_are_read_in_one_way();
    texts_are_read();
}

/// An answer follows from what was read of no more files than are named.
pub fn answers_follow_from_named_files()
    ensures { (o : Option Asked) (r : Reading) (x : Answer) → Follows o r x → length r ≤ length (files_of o) }
{}

/// At most one answer is correct where each file that was opened for both is settled; but of machines that are compared two may
/// be correct as `one_answer_follows` says.
pub fn at_most_one_answer_is_correct()
    ensures compared { (g : Call) (x y : Answer) (p : IsCorrectAnswer g x) (q : IsCorrectAnswer g y)
        → AreSettled g p.reading q.reading → SaySame g.asked q.reading x y }
    ensures uncompared { (g : Call) (x y : Answer) → compares g.asked ≡ false
        → (p : IsCorrectAnswer g x) (q : IsCorrectAnswer g y) → AreSettled g p.reading q.reading → x ≡ y }
{
    certificates_are_read_in_one_way();
    texts_are_read();
}

/// Where the files that are named are settled up to the first that is refused, at most one answer is correct, whatever the
/// files behind hold, and whether they can be read or not; but of machines that are compared two may be correct as
/// `one_answer_follows` says.
pub fn files_up_to_the_refused_one_settle_the_answer()
    ensures compared { (g : Call) (x y : Answer) → AreSettledUpToRefused g → (p : IsCorrectAnswer g x) (q : IsCorrectAnswer g y)
        → SaySame g.asked q.reading x y }
    ensures uncompared { (g : Call) (x y : Answer) → compares g.asked ≡ false → AreSettledUpToRefused g → IsCorrectAnswer g x
        → IsCorrectAnswer g y → x ≡ y }
{
    certificates_are_read_in_one_way();
    texts_are_read();
}

/// Files are settled up to the first that is refused where all that are named are settled; where so many are settled, and an
/// answer follows from what is read of these alone; where the first is refused as that of a machine; where the first is settled
/// and the second refused so; where the first two are known to spell machines with other inputs or outputs; and where links of a
/// chain are known to hold, and the next one not to.
pub fn files_are_settled_up_to_the_refused_one()
    ensures all { (g : Call) → ((file : ℕ) → file < length (files_of g.asked) → IsSettled g file) → AreSettledUpToRefused g }
    ensures answered { (g : Call) (count : ℕ) (x : Answer) → ((file : ℕ) → file < count → IsSettled g file)
        → Follows g.asked (read_from g 0 count) x → AreSettledUpToRefused g }
    ensures first { (g : Call) → IsRefusedAsMachine g 0 → AreSettledUpToRefused g }
    ensures second { (g : Call) → IsSettled g 0 → IsRefusedAsMachine g 1 → AreSettledUpToRefused g }
    ensures others { (g : Call) (a b : Fsmd) → IsKnown g 0 (SpellsMachine a) → IsKnown g 1 (SpellsMachine b) → (name : List ℕ)
        → interface_fault a b ≡ Some name → AreSettledUpToRefused g }
    ensures link { (g : Call) (words : List (List ℕ)) (known : ℕ) (first last next : Fsmd) (nodes : List (Node Fact))
        → g.asked ≡ Some (Chain words) → known < links_of words → IsKnown g 0 (SpellsMachine first)
        → AreKnownToHold g 1 known first last → SpellLink g (2 * known + 1) last next nodes → verdict_on last next nodes ≢ Yes
        → AreSettledUpToRefused g }
{
    certificates_are_read_in_one_way();
    texts_are_read();
}

/// Machines that are spelled and have the same inputs and outputs are answered, and not refused. Two that are compared are
/// equivalent, have a counterexample, or are undecided by an obstacle. A certificate of theirs that is spelled is judged: by its
/// verdict, which is yes, no or undecided. Inputs that are spelled are run from, by one machine, or by two, and are made small.
/// The answer to `fmt` is the canonical text of the machine, and that to `cuts` the list of its paths. A program whose parts
/// break no rule is answered by their canonical text; parts that are spelled are answered under unit counts, and by a binding. A
/// chain whose links hold is answered by the number of its machines, and else by the verdict on its first link that does not
/// hold.
pub fn machines_are_answered()
    ensures check { (g : Call) (x : Answer) (a b : Fsmd) → is_check g.asked ≡ true → SpellPair g a b → IsCorrectAnswer g x
        → IsOfPair (step_limit g.asked) (is_some (cert_of g.asked)) a b x }
    ensures verify { (g : Call) (x : Answer) (a b : Fsmd) (nodes : List (Node Fact)) → is_verify g.asked ≡ true → SpellPair g a b
        → IsKnown g 2 (SpellsCertificate a b nodes) → IsCorrectAnswer g x → IsJudged a b nodes x }
    ensures generate { (g : Call) (x : Answer) (loops : ℕ) → g.asked ≡ Some (Generate loops) → IsCorrectAnswer g x
        → IsOfLoops loops x }
    ensures run { (g : Call) (x : Answer) (machine inputs : List ℕ) (steps : ℕ) (m : Fsmd) (ins : Inputs)
        → g.asked ≡ Some (Run machine inputs steps) → IsKnown g 0 (SpellsMachine m) → IsKnown g 1 (SpellsInputs m ins)
        → IsCorrectAnswer g x → IsOfRun steps m ins x }
    ensures replay { (g : Call) (x : Answer) (left right inputs : List ℕ) (steps : ℕ) (a b : Fsmd) (ins : Inputs)
        → g.asked ≡ Some (Replay left right inputs steps) → SpellPair g a b → IsKnown g 2 (SpellsInputs a ins)
        → IsCorrectAnswer g x → IsOfReplay steps a b ins x }
    ensures fmt { (g : Call) (x : Answer) (machine : List ℕ) (parts : Source) → g.asked ≡ Some (Fmt machine)
        → IsKnown g 0 (SpellsParts parts) → IsCorrectAnswer g x → x ≡ Text (canonical parts) }
    ensures cuts { (g : Call) (x : Answer) (machine : List ℕ) (m : Fsmd) → g.asked ≡ Some (Cuts machine)
        → IsKnown g 0 (SpellsMachine m) → IsCorrectAnswer g x → x ≡ Text (paths_text m) }
    ensures compile { (g : Call) (x : Answer) (file : List ℕ) (program : Program) → g.asked ≡ Some (Compile file)
        → IsKnown g 0 (SpellsProgram program) → IsCorrectAnswer g x → IsOfProgram program x }
    ensures schedule { (g : Call) (x : Answer) (machine counts : List ℕ) (parts : Source) (units : Units)
        → g.asked ≡ Some (Schedule machine counts) → IsKnown g 0 (SpellsParts parts) → IsKnown g 1 (SpellUnits units)
        → IsCorrectAnswer g x → IsOfSchedule parts units x }
    ensures bind { (g : Call) (x : Answer) (machine registers : List ℕ) (parts : Source) (b : Binding)
        → g.asked ≡ Some (Bind machine registers) → IsKnown g 0 (SpellsParts parts)
        → IsKnown g 1 (SpellsBinding (machine_of parts) b) → IsCorrectAnswer g x → IsOfBinding parts b x }
    ensures shrink { (g : Call) (x : Answer) (left right inputs : List ℕ) (steps : ℕ) (a b : Fsmd) (ins : Inputs)
        → g.asked ≡ Some (Shrink left right inputs steps) → SpellPair g a b → IsKnown g 2 (SpellsInputs a ins)
        → IsCorrectAnswer g x → IsOfShrink steps a b ins x }
    ensures chain { (g : Call) (x : Answer) (words : List (List ℕ)) (first last : Fsmd) → g.asked ≡ Some (Chain words)
        → IsKnown g 0 (SpellsMachine first) → AreKnownToHold g 1 (links_of words) first last → IsCorrectAnswer g x
        → IsOfChain first last (links_of words) x }
    ensures stopped { (g : Call) (x : Answer) (words : List (List ℕ)) (held : ℕ)
        (first last next : Fsmd) (nodes : List (Node Fact)) → g.asked ≡ Some (Chain words) → held < links_of words
        → IsKnown g 0 (SpellsMachine first) → AreKnownToHold g 1 held first last → SpellLink g (2 * held + 1) last next nodes
        → verdict_on last next nodes ≢ Yes → IsCorrectAnswer g x → AtLink g.asked (held + 1) (IsJudged last next nodes) x }
{
    certificates_are_read_in_one_way();
    texts_are_read();
}

/// Machines that are spelled get their answers: where neither the sink nor the store of the certificate failed, a call ends with
/// an answer of theirs, as `machines_are_answered` says it, whose reply was put whole and whose status is the call's, or there
/// was no memory.
pub fn machines_get_their_answers()
    ensures check { (g : Call) (p : Put) (a b : Fsmd) → is_check g.asked ≡ true → SpellPair g a b → NothingFailed g p
        → Outcome g p → EndsBy (IsOfPair (step_limit g.asked) (is_some (cert_of g.asked)) a b) g p }
    ensures verify { (g : Call) (p : Put) (a b : Fsmd) (nodes : List (Node Fact)) → is_verify g.asked ≡ true → SpellPair g a b
        → IsKnown g 2 (SpellsCertificate a b nodes) → NothingFailed g p → Outcome g p → EndsBy (IsJudged a b nodes) g p }
    ensures generate { (g : Call) (p : Put) (loops : ℕ) → g.asked ≡ Some (Generate loops) → NothingFailed g p → Outcome g p
        → EndsBy (IsOfLoops loops) g p }
    ensures run { (g : Call) (p : Put) (machine inputs : List ℕ) (steps : ℕ) (m : Fsmd) (ins : Inputs)
        → g.asked ≡ Some (Run machine inputs steps) → IsKnown g 0 (SpellsMachine m) → IsKnown g 1 (SpellsInputs m ins)
        → NothingFailed g p → Outcome g p → EndsBy (IsOfRun steps m ins) g p }
    ensures replay { (g : Call) (p : Put) (left right inputs : List ℕ) (steps : ℕ) (a b : Fsmd) (ins : Inputs)
        → g.asked ≡ Some (Replay left right inputs steps) → SpellPair g a b → IsKnown g 2 (SpellsInputs a ins) → NothingFailed g p
        → Outcome g p → EndsBy (IsOfReplay steps a b ins) g p }
    ensures fmt { (g : Call) (p : Put) (machine : List ℕ) (parts : Source) → g.asked ≡ Some (Fmt machine)
        → IsKnown g 0 (SpellsParts parts) → NothingFailed g p → Outcome g p → EndsBy (λ x. x ≡ Text (canonical parts)) g p }
    ensures cuts { (g : Call) (p : Put) (machine : List ℕ) (m : Fsmd) → g.asked ≡ Some (Cuts machine)
        → IsKnown g 0 (SpellsMachine m) → NothingFailed g p → Outcome g p → EndsBy (λ x. x ≡ Text (paths_text m)) g p }
    ensures compile { (g : Call) (p : Put) (file : List ℕ) (program : Program) → g.asked ≡ Some (Compile file)
        → IsKnown g 0 (SpellsProgram program) → NothingFailed g p → Outcome g p → EndsBy (IsOfProgram program) g p }
    ensures schedule { (g : Call) (p : Put) (machine counts : List ℕ) (parts : Source) (units : Units)
        → g.asked ≡ Some (Schedule machine counts) → IsKnown g 0 (SpellsParts parts) → IsKnown g 1 (SpellUnits units)
        → NothingFailed g p → Outcome g p → EndsBy (IsOfSchedule parts units) g p }
    ensures bind { (g : Call) (p : Put) (machine registers : List ℕ) (parts : Source) (b : Binding)
        → g.asked ≡ Some (Bind machine registers) → IsKnown g 0 (SpellsParts parts)
        → IsKnown g 1 (SpellsBinding (machine_of parts) b) → NothingFailed g p → Outcome g p → EndsBy (IsOfBinding parts b) g p }
    ensures shrink { (g : Call) (p : Put) (left right inputs : List ℕ) (steps : ℕ) (a b : Fsmd) (ins : Inputs)
        → g.asked ≡ Some (Shrink left right inputs steps) → SpellPair g a b → IsKnown g 2 (SpellsInputs a ins) → NothingFailed g p
        → Outcome g p → EndsBy (IsOfShrink steps a b ins) g p }
    ensures chain { (g : Call) (p : Put) (words : List (List ℕ)) (first last : Fsmd) → g.asked ≡ Some (Chain words)
        → IsKnown g 0 (SpellsMachine first) → AreKnownToHold g 1 (links_of words) first last → NothingFailed g p → Outcome g p
        → EndsBy (IsOfChain first last (links_of words)) g p }
    ensures stopped { (g : Call) (p : Put) (words : List (List ℕ)) (held : ℕ) (first last next : Fsmd) (nodes : List (Node Fact))
        → g.asked ≡ Some (Chain words) → held < links_of words → IsKnown g 0 (SpellsMachine first)
        → AreKnownToHold g 1 held first last → SpellLink g (2 * held + 1) last next nodes → verdict_on last next nodes ≢ Yes
        → NothingFailed g p → Outcome g p → EndsBy (AtLink g.asked (held + 1) (IsJudged last next nodes)) g p }
{
    certificates_are_read_in_one_way();
    texts_are_read();
}

/// A comparison ends with what the machines get, as `Fine`, `Differ` or `Undecided`, or with `NoMemory`, where neither the
/// sink nor the store of the certificate failed: of machines that files spell and that have the same inputs and outputs,
/// and of generated ones.
pub fn comparisons_end_with_what_machines_get()
    ensures check { (g : Call) (p : Put) (a b : Fsmd) → is_check g.asked ≡ true → SpellPair g a b → NothingFailed g p
        → Outcome g p → IsTrue (is_of_comparison p.status) }
    ensures generate { (g : Call) (p : Put) (loops : ℕ) → g.asked ≡ Some (Generate loops) → NothingFailed g p → Outcome g p
        → IsTrue (is_of_comparison p.status) }
{}

/// A certificate that holds passes: where a file spells its nodes, and two others its machines, the answer is yes. So it is for
/// each certificate that shows that two machines have the same behaviour.
pub fn certificates_that_hold_pass()
    ensures { (g : Call) (x : Answer) (a b : Fsmd) (nodes : List (Node Fact)) → is_verify g.asked ≡ true → SpellPair g a b
        → IsKnown g 2 (SpellsCertificate a b nodes) → IsCertificate (machines a b) nodes → IsCorrectAnswer g x
        → x ≡ Text (codes "yes\n") }
{
    certificates_are_read_in_one_way();
    texts_are_read();
}

/// A certificate of a closed search passes: where a file spells its nodes, and two others its machines, the answer is yes.
pub fn certificates_of_closed_searches_pass()
    ensures { (g : Call) (x : Answer) (a b : Fsmd) (nodes : List (Node Fact)) → is_verify g.asked ≡ true → SpellPair g a b
        → IsKnown g 2 (SpellsCertificate a b nodes) → IsClosedWith (machines a b) nodes → IsCorrectAnswer g x
        → x ≡ Text (codes "yes\n") }
{
    certificates_of_closed_searches_hold();
    certificates_that_hold_pass();
}

/// What is stored passes: where a file is the text of a certificate that shows that two machines have the same behaviour, and two
/// others spell these machines, the answer is yes.
pub fn stored_certificates_pass()
    ensures { (g : Call) (x : Answer) (a b : Fsmd) (nodes : List (Node Fact)) → is_verify g.asked ≡ true → SpellPair g a b
        → IsKnown g 2 (λ bytes. bytes ≡ certificate_text a b nodes) → ShowsSame (machines a b) nodes → IsCorrectAnswer g x
        → x ≡ Text (codes "yes\n") }
{
    certificates_are_read_in_one_way();
    texts_are_read();
    certificates_that_hold_are_small();
    written_certificates_that_hold_are_read();
}
