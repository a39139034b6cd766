//! Sums of texts, by themselves, and the token machine of sums and guards.
//!
//! Each language that has sums and guards reads them by `sum` and by the `guard` of `fs_phrase_text`. Their contracts
//! speak of a token machine of sums and guards alone (`specs/Inside`), from any place inside one on.
//!
//! Promises: sums of tokens, for any language that has them; what it is to read a sum or a guard.
//!
//! Rules: `specs/Inside`, `specs/Hosts`.
#![tactic(auto)]

mod operators;
pub mod sums;
