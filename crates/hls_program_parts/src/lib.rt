//! A small behavioural language over assignments, choices and loops: what a program does, the parts of the machine to
//! which it is compiled, in specs and in code, and that both do the same; and the grammar of its texts.
//!
//! Promises: a machine does what the program does of which it is compiled; which programs keep the rules of texts, and the
//! parts to which programs are compiled; programs by the grammar alone: what bytes spell within the limits, and their first
//! fault; reading token by token gives this.
//!
//! Rules: `specs/Programs`, `specs/ProgramMeaning`, `specs/Compiled`, `src/laws`, `specs/View`, `specs/ProgramSpelling`,
//! `specs/ProgramBeginnings`, `specs/ProgramLimits`, `specs/ProgramTexts`, `src/grammar_laws`.
//!
//! Words:
//! - block: statements that follow one another
//! - depth (of a block): how many others it stands in
//! - program: declarations and the outermost block
//! - well formed (of a program): what keeps the rules and limits of texts, lines aside
#![tactic(auto)]

mod counts;
pub mod grammar_laws;
pub mod laws;
pub mod parts;
pub mod program;
mod states;
mod transitions;
pub mod well_formed;
