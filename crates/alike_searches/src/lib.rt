//! Searches of alike machines: at a pair of alike points both machines move, each table is even, and limits alone stop
//! them. On paths of alike machines the same conditions hold and equal terms are left; a rebase makes facts of alike
//! machines even, and a join keeps them even. With laws of terms that hold whatever is in them: what operations give
//! rises, and the literals of a relation and of its opposite clash.
//!
//! Promises: limits alone stop a search of alike machines, over laws of their terms, paths, facts and tables.
//! Machines that differ only in the names of their states are alike, and so is a pair of which one does in two steps
//! what the other does in one.
//!
//! Rules: `specs/Even`, `specs/EvenFacts`, `specs/RenamedStates`, `specs/SplitStates`, `src/laws`, `src/path_laws`,
//! `src/term_laws`, `src/fact_laws`, `src/name_laws`, `src/table_laws`.
#![tactic(auto)]

pub mod fact_laws;
pub mod laws;
pub mod name_laws;
pub mod path_laws;
pub mod table_laws;
pub mod term_laws;
