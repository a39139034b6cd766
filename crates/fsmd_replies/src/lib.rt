//! The words of replies: what each answer puts, the names of faults, obstacles and reasons, and the lines of verdicts, chains,
//! bindings and schedules.
//!
//! Promises: the bytes of each answer, its status, the lines that answers hold, and the words that name the files of a
//! command.
//!
//! Rules: `specs/Replies`, `specs/Statuses`, `specs/AskedFiles`, `specs/ObstacleTexts`, `specs/Reasons`,
//! `specs/VerdictTexts`, `specs/ChainTexts`, `specs/BindingTexts`, `specs/ScheduleTexts`.
//!
//! Words:
//! - answer: what a command says to what was read, before it is text
//! - fault (at a key): what is wrong at the first such key of a file of inputs, unit counts or a binding
#![tactic(auto)]

pub mod answer;
pub mod bindings;
pub mod chains;
pub mod obstacles;
pub mod reason;
mod refusals;
pub mod reply;
pub mod schedules;
mod texts;
pub mod variables;
pub mod verdicts;
pub mod words;
