//! The law of alike machines, over the definitions alone. The function does nothing.

ghost use Rattle.std.specs.Prelude.{◌≡◌, ℕ, true, false, Some, is_some};
ghost use Rattle.fsmd_words.specs.AskedWords.{Generate};
ghost use Rattle.fs_model.specs.Machines.{Fsmd};
ghost use Rattle.cert_bisimulation.specs.Alike.{WhereAlike};
ghost use Rattle.fsmd_replies.specs.AskedFiles.{cert_of, is_check};
ghost use Rattle.fsmd_tool.specs.MachineFiles.{SpellsMachine};
ghost use Rattle.fsmd_tool.specs.ComparisonAnswers.{left_of, right_of};
ghost use Rattle.fsmd_tool.specs.Calls.{Call};
ghost use Rattle.fsmd_tool.specs.SinkReplies.{Put};
ghost use Rattle.fsmd_tool.specs.Correct.{Outcome};
ghost use Rattle.fsmd_tool_laws.specs.Settled.{IsKnown};
ghost use Rattle.fsmd_tool_laws.specs.CallOutcomes.{NothingFailed, EndsBy};
ghost use Rattle.fsmd_tool_laws.specs.AlikeAnswers.{IsClosedOrLimitAnswer};

/// Alike machines get the answer of a search that closes, or the line of a limit that stops it, or there was no memory, where
/// neither the sink failed nor the store of the certificate: never a refusal, a difference or another obstacle. So it is of
/// machines that files spell, and of generated ones.
pub fn alike_machines_get_their_answers()
    ensures check { (g : Call) (p : Put) (a b : Fsmd) → is_check g.asked ≡ true → IsKnown g 0 (SpellsMachine a)
        → IsKnown g 1 (SpellsMachine b) → NothingFailed g p → Outcome g p
        → WhereAlike a b (EndsBy (IsClosedOrLimitAnswer (is_some (cert_of g.asked)) a b) g p) }
    ensures generate { (g : Call) (p : Put) (loops : ℕ) → g.asked ≡ Some (Generate loops) → NothingFailed g p → Outcome g p
        → WhereAlike (left_of loops) (right_of loops)
        (EndsBy (IsClosedOrLimitAnswer false (left_of loops) (right_of loops)) g p) }
{}
