//! The moves of a search, made again one after another: what each of them does to the table, and the lines that tell it.
//!
//! Promises: `history`: the lines of what the moves of a search did, exactly; `turn`, `make_turn`: what a move does to a
//! table, and the table then; `moves_make_the_same_table`: made again, the moves of a search make the table of the search.
//!
//! Rules: `specs/MoveReplays`, `specs/MoveLines`, `specs/MoveLaws`, `src/laws`.
//!
//! Words:
//! - history: the moves of a search, each with what it did
//! - turn (of a search): what a move does, where it is made again
#![tactic(auto)]

pub mod history;
pub mod laws;
pub mod lines;
pub mod points;
pub mod sides;
pub mod turn;
pub mod turns;
