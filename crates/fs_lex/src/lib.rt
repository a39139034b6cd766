//! The tokens of a machine text.
//!
//! Space, tab, CR and LF separate tokens; a comment runs from `#` to the end of its line. Words, numbers and punctuation
//! are as long as they can be. Each function of `src/text_laws` and `src/token_laws` is a law of what bytes can read as;
//! it does nothing.
//!
//! Promises: the tokens of bytes, with places and the mark of an operator too many; they are the words, numbers and
//! punctuation of a text, and there are no others; what bytes spell and where they are faulty, by the bytes and the
//! grammar alone.
//!
//! Rules: `specs/Lexemes`, `specs/Scan`, `specs/Vocabulary`, `specs/Tokenization`, `specs/Kinds`, `specs/Limit`,
//! `specs/MachineTexts`.
#![tactic(auto)]

pub mod lexemes;
pub mod scan;
pub mod text_laws;
pub mod token_laws;

pub use scan::tokens;
