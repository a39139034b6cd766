//! What the steps of synthesis get: a program the text of its machine, a machine its schedule under unit counts, or its registers
//! by a binding.
//!
//! Promises: `compiled_text`, `scheduled_text`, `bound_text`: the texts that steps of synthesis write, and what is
//! right about each.
//!
//! Rules: `specs/ProgramAnswers`, `specs/ScheduleAnswers`, `specs/BindingAnswers`.
#![tactic(auto)]

pub mod bindings;
pub mod programs;
pub mod schedules;

pub use hls_lang::{fault, program, read_program};
pub use hls_sched::SchedError;
