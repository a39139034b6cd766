//! Worked examples of the one call that the program makes, over files in memory: each command once, and files and sinks that
//! fail; and what words of the command line ask.
//!
//! The crate gives nothing. What needs the program alone is shown by tests/, whose files are the words, the machines and the
//! replies.
#![tactic(auto)]

#[cfg(test)]
mod cases;
#[cfg(test)]
mod commands;
#[cfg(test)]
mod failing_files;
#[cfg(test)]
mod failing_sinks;
#[cfg(test)]
mod files;
#[cfg(test)]
mod words;
