//! The grammar of machine texts: tokens, faults, and what a list of tokens reads as.
//!
//! The definitions stand in `specs/`. A text is read token by token; a parse state is what was read so far and what is
//! still expected. A fault is at the first token that has no step. The grammar is also stated with no order of reading:
//! which words spell which parts (`specs/Spelling`), and which words begin which rule (`specs/Beginnings`). Each function
//! of `src/laws` is a law of both, stated by its contract over all lists of tokens; it does nothing.
//!
//! Promises: tokens, formats, faults, and the reading of tokens by parse states; what is read is spelled and the other
//! way; where the first fault is; where operators stand.
//!
//! Rules: `specs/Tokens`, `specs/Operators`, `specs/Formats`, `specs/Grammar`, `specs/Spelling`, `specs/Beginnings`,
//! `specs/Faults`, `specs/ExpressionEnds`.
//!
//! Words:
//! - chain (of operands): operands that operators of one level join, grouped to the left
//! - fault (of a text): the first wrong token, with its line, column and kind
//! - format (of a machine text): 1 or 2, the number after `fsmd`; ports need 2
//! - line (in the grammar): a transition of a state
//! - parse state: what is still owed by the tokens to come, with the values so far
//! - reading (of tokens): what a list of tokens is by the grammar: parts, or a fault
//! - spells: the relation between a text and what it says
//! - unit (in the grammar): a negation, a guard in braces, or a relation
//! - word (of a text): a token by its line and its kind, without its column
#![tactic(auto)]

pub mod fault;
pub mod format;
pub mod laws;
pub mod token;
