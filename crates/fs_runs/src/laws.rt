//! Laws of steps and runs as the code takes them. The functions do nothing.

ghost use Rattle.fs_runs.specs.StepLaws.{TouchedByBranches, OneEnd, OneStop, EndOrStop};

/// Of a step from a state of a sound machine, each touched number lies within 128 bits exactly when
/// each number does that is looked at on the branches up to the one taken, and each number of that
/// branch's assignments.
pub fn touched_numbers_are_those_of_the_branch()
    ensures { TouchedByBranches }
{}

/// A run of a machine on inputs, of at most so many steps, has one outcome: one end, or one stop.
pub fn a_run_has_one_outcome()
    ensures ended { OneEnd }
    ensures stopped { OneStop }
    ensures apart { EndOrStop }
{}
