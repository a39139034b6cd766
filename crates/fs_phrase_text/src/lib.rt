//! Phrases of texts, by themselves, for any language that has them: declarations, and guards, which are relations between
//! the sums of `fs_expression_text`, in its token machine; and what their reading means by the grammar alone.
//!
//! Promises: names and sorts of declarations, and guards of tokens, for any language that has them; what is read of a
//! sum or a guard stands first in the tokens and the other way; where the first fault is; the same of declarations.
//!
//! Rules: `specs/Declaring`, `fs_expression_text/specs/Inside`, `specs/Expressions`, `specs/Declarations`.
#![tactic(auto)]

pub mod declaration_laws;
pub mod declarations;
pub mod expression_laws;
pub mod guards;
