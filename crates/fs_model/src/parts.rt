//! The parts of a machine, as its text declares them, and the parts of a machine that was checked.

ghost use Rattle.std.specs.Prelude.{◌≡◌};
ghost use Rattle.fs_model.specs.Meaning.{relates};
ghost use Rattle.fs_model.specs.Trees.{opposite};
ghost use Rattle.fs_model.specs.Runs.{is_input, is_output, is_scalar, is_array, is_port};

use crate::name::Name;
use std::rc::Rc;

/// The number of a variable: its place among the variables of its machine, from 0.
#[derive(Clone, Copy, PartialEq, Eq)]
pub struct VarId(pub u32);

/// The number of a state: its place among the states of its machine, from 0.
#[derive(Clone, Copy, PartialEq, Eq)]
pub struct StateId(pub u32);

/// Whether a variable holds a number, a number at each index, or a list of emitted numbers.
#[derive(Clone, Copy, PartialEq, Eq)]
pub enum Sort {
    Scalar,
    Array,
    Port,
}

impl Sort {
    /// Whether a variable of the sort holds one number.
    pub fn is_scalar(self) -> bool
        ensures { result ≡ is_scalar self }
    {
        matches!(self, Sort::Scalar)
    }

    /// Whether a variable of the sort holds a number at each index.
    pub fn is_array(self) -> bool
        ensures { result ≡ is_array self }
    {
        matches!(self, Sort::Array)
    }

    /// Whether a variable of the sort holds a list of emitted numbers.
    pub fn is_port(self) -> bool
        ensures { result ≡ is_port self }
    {
        matches!(self, Sort::Port)
    }
}

/// What a variable is for.
#[derive(Clone, Copy)]
pub enum Role {
    Input,
    Output,
    Local,
}

impl Role {
    /// Whether a variable is given at the start of a run.
    pub fn is_input(self) -> bool
        ensures { result ≡ is_input self }
    {
        matches!(self, Role::Input)
    }

    /// Whether a variable's final value is a result of a run.
    pub fn is_output(self) -> bool
        ensures { result ≡ is_output self }
    {
        matches!(self, Role::Output)
    }
}

/// A relation between two numbers.
#[derive(Clone, Copy)]
pub enum Rel {
    Eq,
    Ne,
    Lt,
    Le,
    Gt,
    Ge,
}

impl Rel {
    /// Whether the relation holds between two numbers.
    pub fn holds(self, left: i128, right: i128) -> bool
        ensures { result ≡ relates self left right }
    {
        match self {
            Rel::Eq => left == right,
            Rel::Ne => left != right,
            Rel::Lt => left < right,
            Rel::Le => left <= right,
            Rel::Gt => left > right,
            Rel::Ge => left >= right,
        }
    }

    /// The relation that holds exactly when this one does not.
    pub fn opposite(self) -> Rel
        ensures { result ≡ opposite self }
    {
        match self {
            Rel::Eq => Rel::Ne,
            Rel::Ne => Rel::Eq,
            Rel::Lt => Rel::Ge,
            Rel::Ge => Rel::Lt,
            Rel::Le => Rel::Gt,
            Rel::Gt => Rel::Le,
        }
    }
}

/// An expression over variables of the type `V`.
#[derive(Drop)]
pub enum Expr<V> {
    Num(i128),
    Var(V),
    /// The element of an array at an index.
    Read(V, Box<Expr<V>>),
    Add(Box<Expr<V>>, Box<Expr<V>>),
    Sub(Box<Expr<V>>, Box<Expr<V>>),
    Mul(Box<Expr<V>>, Box<Expr<V>>),
    /// The quotient, rounded toward zero; 0 where the divisor is 0.
    Div(Box<Expr<V>>, Box<Expr<V>>),
    /// The remainder, with the dividend's sign; 0 where the divisor is 0.
    Rem(Box<Expr<V>>, Box<Expr<V>>),
    Neg(Box<Expr<V>>),
}

/// A literal: a relation between two expressions.
#[derive(Drop)]
pub struct Lit<V> {
    pub rel: Rel,
    pub left: Expr<V>,
    pub right: Expr<V>,
}

/// A guard; as a text has it, over names.
#[derive(Drop)]
pub enum Guard<V = Name> {
    Lit(Lit<V>),
    Not(Box<Guard<V>>),
    And(Box<Guard<V>>, Box<Guard<V>>),
    Or(Box<Guard<V>>, Box<Guard<V>>),
}

/// An assignment to a scalar, a write to an array at an index, or a number emitted to a port.
#[derive(Drop)]
pub enum Assign<V> {
    Set(V, Expr<V>),
    Put(V, Expr<V>, Expr<V>),
    Emit(V, Expr<V>),
}

/// A declaration of variables. `line` is the line of its first word, from 1.
#[derive(Drop)]
pub struct Decl {
    pub line: u32,
    pub role: Role,
    pub sort: Sort,
    pub names: Vec<Name>,
}

/// A transition of a state. `line` is the line of its first word, from 1.
#[derive(Drop)]
pub struct RawLine {
    pub line: u32,
    pub guard: Option<Guard>,
    pub target: Name,
    pub assigns: Vec<Assign<Name>>,
}

/// A state with its transitions. `line` is the line of its first word, from 1.
#[derive(Drop)]
pub struct RawState {
    pub line: u32,
    pub name: Name,
    pub lines: Vec<RawLine>,
}

/// The parts of a machine text, not yet checked.
#[derive(Drop)]
pub struct Parts {
    pub decls: Vec<Decl>,
    pub reset_line: u32,
    pub reset: Name,
    pub states: Vec<RawState>,
}

/// A variable of a machine.
#[derive(Drop)]
pub struct VarInfo {
    pub name: Name,
    pub role: Role,
    pub sort: Sort,
}

/// A branch of a state: the literals on the way to it, its assignments and its target. Branches share both: the branches
/// below a test have one literal, and the branches of a transition have one list of assignments.
#[derive(Drop)]
pub struct Branch {
    pub lits: Vec<Rc<Lit<VarId>>>,
    pub assigns: Rc<Vec<Assign<VarId>>>,
    pub target: StateId,
}
