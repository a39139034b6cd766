//! The rules that a machine keeps.

/// A rule that the parts of a machine may break, in the order in which they are answered.
#[derive(Clone, Copy)]
pub enum CheckRule {
    TwiceNamed,
    UnknownName,
    WrongSort,
    AssignInput,
    AssignedTwice,
    NoElse,
    AfterElse,
    TooManyBranches,
    EndlessLine,
    UnknownState,
    TooMany,
    TooManyEmits,
}

/// A broken rule, and the line of the text where it is broken, from 1.
#[derive(Clone, Copy)]
pub struct CheckFault {
    pub rule: CheckRule,
    pub line: u32,
}
