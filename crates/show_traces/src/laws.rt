//! Laws of traces. The functions do nothing.

ghost use Rattle.show_traces.specs.TraceLaws.{PlacesFollow, OneTrace};

/// Each place of a run of a sound machine is followed by the step that the machine takes there.
pub fn places_follow_by_steps()
    ensures { PlacesFollow }
{}

/// A run of a machine on inputs, of at most so many steps, has one trace.
pub fn a_run_has_one_trace()
    ensures { OneTrace }
{}
