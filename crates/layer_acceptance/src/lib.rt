//! Worked examples of what no clause says of the crates below the program's answers, by calls: files and sinks, in memory and on
//! the system; terms, their operations, literals and substitution; candidates, inputs and positions; basic blocks, unit counts,
//! blocks in blocks and chains.
//!
//! The crate gives nothing. What the program shows stands in tests/.
#![tactic(auto)]

#[cfg(test)]
mod calls;
#[cfg(test)]
mod candidates;
#[cfg(test)]
mod files;
#[cfg(test)]
mod machines;
#[cfg(test)]
mod synthesis;
#[cfg(test)]
mod terms;
