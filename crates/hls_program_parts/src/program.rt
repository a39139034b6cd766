//! Programs.

use fs_model::name::Name;
use fs_model::parts::{Assign, Decl, Guard};

/// A statement of a program. `line` is the line of its first word, from 1.
#[derive(Drop)]
pub enum Stmt {
    /// An assignment to a scalar, or a write to an array at an index.
    Do {
        line: u32,
        assign: Assign<Name>,
    },
    /// A choice between two blocks; an absent `else` is an empty block.
    If {
        line: u32,
        guard: Guard,
        yes: Vec<Stmt>,
        no: Vec<Stmt>,
    },
    /// A loop: the body again and again, as long as the guard holds.
    While {
        line: u32,
        guard: Guard,
        body: Vec<Stmt>,
    },
}

/// A program: its declarations, and its outermost block.
#[derive(Drop)]
pub struct Program {
    pub decls: Vec<Decl>,
    pub body: Vec<Stmt>,
}
