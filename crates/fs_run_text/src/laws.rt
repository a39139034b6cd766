//! Laws: each thing that prints has one text, and inputs serve machines with one interface. The
//! functions do nothing.

ghost use Rattle.fs_run_text.specs.PrintingLaws.{OneContentText, OneEndText, OneStopText, OneRunText, OneReplayText};
ghost use Rattle.fs_run_text.specs.PrintingLaws.{OneCounterexampleText, InputsServeBoth};

/// A content prints as one text.
pub fn a_content_has_one_text()
    ensures { OneContentText }
{}

/// A run of a machine on inputs has one text, whatever it answers: the text of its end, or of its stop.
pub fn a_run_has_one_text()
    ensures ended { OneEndText }
    ensures stopped { OneStopText }
    ensures whole { OneRunText }
{}

/// Two runs that ended have one text.
pub fn a_replay_has_one_text()
    ensures { OneReplayText }
{}

/// A counterexample has one text.
pub fn a_counterexample_has_one_text()
    ensures { OneCounterexampleText }
{}

/// Values for the inputs of a machine serve each machine with the same inputs and outputs.
pub fn inputs_serve_both()
    ensures { InputsServeBoth }
{}
