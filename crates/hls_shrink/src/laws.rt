//! Laws of the chain of first reductions, and of what inputs are given. The functions do nothing.

ghost use Rattle.hls_shrink.specs.ReductionLaws.{OneList, OneChainEnd, EndIsLeast, GivenByName, NoInputPorts};

/// What inputs are given has one list of entries.
pub fn inputs_have_one_list_of_entries()
    ensures { OneList }
{}

/// The chain of first reductions from inputs that show a difference has one end.
pub fn a_chain_of_first_reductions_has_one_end()
    ensures { OneChainEnd }
{}

/// No reduction of the end of a chain of first reductions shows a difference.
pub fn the_end_of_a_chain_is_least()
    ensures { EndIsLeast }
{}

/// What inputs give in order of declaration is what they give the names of a machine's inputs, where none of these is a port:
/// of a port, inputs by names say nothing.
pub fn inputs_are_given_by_name()
    ensures { GivenByName }
{}

/// No input of a machine that a text spells is a port: ports are outputs where the parts are well formed.
pub fn no_input_of_a_text_is_a_port()
    ensures { NoInputPorts }
{}
