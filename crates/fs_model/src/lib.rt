//! Finite state machines with datapath: the parts that a text declares, and what a machine means.
//!
//! The definitions stand in `specs/`, over plain data: expressions, guards, assignments, machines, stores,
//! steps, runs, decision trees, and when two machines have the same behaviour.
//!
//! Promises: names, parts, machines, stores, steps, runs, same behaviour, decision trees; copies, with a renaming where
//! one is asked for; limits; out of memory by `?`.
//!
//! Rules: `specs/Machines`, `specs/Runs`, `specs/Trees`, `specs/WellFormed`, `specs/SoundMachines`, `specs/Limits`,
//! `src/laws`, `src/assignment_copies`.
//!
//! Words:
//! - assignment: a scalar gets a number, an array is written at an index, or a number is emitted to a port
//! - branch: a leaf of a state's decision tree, with the literals on its way
//! - condition (of a transition): its optional guard; without one it always holds
//! - content (of an output): what it holds at the end of a run
//! - cutpoint (of a machine): the reset state, or a state with more than one branch
//! - decision tree: the guards of a state's transitions, literal by literal
//! - emit: to append a number to the list of a port
//! - entries (of an array): a number at each index, 0 nearly everywhere
//! - expression (of a machine): a number, a variable, an element of an array, or an operation on expressions
//! - first return: the step in which a run comes back to the reset state for the first time
//! - guard: a formula over literals
//! - line (of a text): its number, from 1
//! - listing (of uses): what is listed of a number, of a scalar by its value, and of an array by an element
//! - literal: a relation between two expressions
//! - machine: variables, a reset state, and states with their transitions
//! - meaning (of an expression, of a guard): its value, and its truth, in a store
//! - name: a word of at most 32 bytes that is not reserved
//! - operator count: the operators and needed brackets of a guard or an assignment
//! - parts: what a text declares, before it is checked
//! - port: an output that is the list of the numbers emitted to it
//! - run: the steps from the reset state to the first return
//! - same behaviour: each run of one machine has a run of the other, from the same inputs to the same outputs
//! - sort, role: scalar, array or port; input, output or local
//! - sound (of a machine): what holds of each machine that was built
//! - step: one transition, taken from a state and a store
//! - store: what each variable holds
//! - touched number: a number that a step values on its way
//! - transition: a guard or none, a target and assignments
//! - well formed (of parts): no number is negative, each declaration has a name, a port is an output, no guard or
//!   assignment is too long
#![tactic(auto)]

pub mod assignment_copies;
pub mod copies;
pub mod laws;
pub mod limits;
pub mod memory;
pub mod name;
pub mod parts;
pub mod sides;
pub mod well_formed;
