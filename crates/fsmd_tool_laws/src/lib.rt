//! Laws of answers: at most one is correct, and which answers come.
//!
//! Promises: at most one answer follows from what was read, and at most one is correct, but for what is found beyond a
//! search that is left open; the files up to the refused one settle it; a file that is refused gets exactly its line;
//! machines and chains are answered, and stored certificates pass.
//!
//! Rules: `src/laws`, `src/refusals`, `specs/Settled`, `specs/OneAnswer`, `specs/FirstRefusals`, `specs/CallOutcomes`.
//!
//! Words:
//! - settled (of a file): it is known not to exist, or its bytes are known and it did not fail to be read
//! - first refusal (of a call): the refusal that follows from what is read of files that are settled
#![tactic(auto)]

pub mod alike;
pub mod laws;
pub mod refusals;
