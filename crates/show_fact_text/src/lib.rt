//! Facts as lines of text: an equation or a condition on each, and what a fact lost; and the texts of points.
//!
//! Promises: `write_fact`, `write_lost_lines`: the lines of facts, and of what they lost, exactly; `write_points`: the text of
//! two points.
//!
//! Rules: `specs/FactLines`, `specs/LostLines`, `specs/PointTexts`.
#![tactic(auto)]

pub mod lines;
pub mod losses;
pub mod names;
pub mod points;
