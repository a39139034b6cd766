//! What is asked to be shown.

use fsmd_words::asking::Ask;

/// What is shown.
#[derive(Clone, Copy)]
pub enum View {
    /// `machine A`: the picture of a machine.
    Machine,
    /// `pair A B`: the picture of what a search of two machines comes to.
    Pair,
    /// `why A B`: what led to the answer that two machines get.
    Why,
    /// `certificate A B C`: what a certificate owes, by number.
    Certificate,
    /// `inputs A B`: the file of inputs that show a difference.
    Inputs,
    /// `trace A I [--steps N]`: a run of a machine on inputs, step by step, of at most so many steps.
    Trace { steps: u64 },
}

/// A view, and what `fsmd` is asked of the same files.
#[derive(Drop)]
pub struct Show {
    pub view: View,
    pub ask: Ask,
}
