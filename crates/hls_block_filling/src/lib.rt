//! Basic blocks and the rows that stand in their place: list scheduling under unit counts, as definitions, laws and code.
//!
//! Promises: `make_plan`: the rows of a basic block under unit counts, and the length of its chain, exactly; of the items that
//! are ready the highest goes first, and it takes time in the square of the items. `over_in`: the first state and unit of which
//! too much is used, exactly. Laws: a valid placing leaves what the items leave one after another; a filling is a valid placing
//! and a list schedule; a machine with its basic blocks in the rows of their fillings behaves as before, is within the units,
//! has blocks of the lengths that are told, and is spelled by parts that keep all rules.
//!
//! Rules: edges and placings in `specs/Items`, `specs/Placings`, `src/placing_laws`; what items use in `specs/ItemUnits`,
//! `specs/Over`, `specs/Counted`, `src/unit_laws`; heights and the order of ready items in `specs/Heights`, `specs/Filling`,
//! `specs/Plans`, `src/filling_laws`; basic blocks in `specs/BasicBlocks`, `src/block_laws`; machines in rows in
//! `specs/RowMachines`, `specs/ScheduledMachines`, `specs/Schedules`, `src/machine_laws`; their parts in `specs/SourceRows`,
//! `specs/Sources`, `src/source_laws`; sets of variables in `specs/EffectSets`, `specs/WaitingItems`, `specs/MachineSelections`.
//!
//! Words:
//! - basic block: a longest list of states with one branch each, none of them the reset state, to each of which but
//!   the first only the one before it leads
//! - chain (of a basic block): one more than the greatest number of strict edges on a walk over its items: the length of
//!   its critical path
//! - effects (of an item): which variables it reads and changes, as sets, and whether it emits
//! - filling: rows that are filled one after another, each by the items of greatest height that may stand there: a list
//!   schedule
//! - height: the greatest number of strict edges on a walk from an item
//! - item (of a basic block): the assignments of one of its transitions
//! - move (of a row): a state whose one transition is the row
//! - placing: a row for each item; valid where it is less on strict edges and not greater on weak ones
//! - row: the items that a placing puts into one step, as one: what is done in one control step
#![tactic(auto)]

pub mod block_laws;
pub mod effects;
mod fill;
pub mod filling_laws;
mod heights;
pub mod machine_laws;
pub mod over;
pub mod placing_laws;
pub mod plan;
mod profiles;
mod rows;
pub mod source_laws;
mod turn;
pub mod unit_laws;
pub mod uses;
mod waits;
