//! Register binding: registers stand for scalar locals, where liveness shows that the behaviour stays the same.
//!
//! A binding is a JSON object from names of scalar locals to names of registers. Several locals may have one register.
//! A branch is twice where it writes two such locals, and it clobbers where it writes one while another is live at the
//! state that it leads to; what is live at the reset state doesn't count, since a run ends there.
//!
//! Promises: registers in place of locals: where no branch loses one that is live, the behaviour stays; `read_binding`:
//! the binding that a file gives, or its first fault; `bind`: the parts with registers and their machine, which behaves
//! as before, or the first branch that loses a local.
//!
//! Rules: `specs/Liveness`, `specs/Bindings`, `specs/Conflicts`, `src/laws`, `specs/BindingMembers`, `specs/Results`.
//!
//! Words:
//! - binding: locals by rising numbers, each with the name of its register
//! - closed (of a set of states): it has each state of which a branch reads a local, and each that leads into it
//!   without writing the local or returning
//! - conflict: a branch that writes a local, and another local of the same register that it writes too, or that is live
//!   where it leads
//! - live: of a local at a state: branches lead from there to one that reads it, and none on the way writes it or leads
//!   to the reset state
//! - register: a name that stands for the locals that are bound to it
//! - transfer (of a branch): its two states, and which variables below 128 it reads and writes
#![tactic(auto)]

mod binding;
mod conflicts;
mod declarations;
mod faults;
mod flows;
pub mod laws;
mod outcome;
mod reader;
mod renaming;
mod sharing;

pub use binding::{Binding, BoundLocal};
pub use faults::BindError;
pub use fs_model::name::NoMemory;
pub use outcome::{Bound, bind};
pub use reader::read_binding;
