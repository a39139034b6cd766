//! Rules of who moves.

/// Who moves at two points at which neither machine is done.
#[derive(Clone, Copy, PartialEq, Eq)]
pub enum Rule {
    /// Where both machines have several ways on, the one that asks less moves alone.
    AsksLessFirst,
    /// Where both machines have several ways on, both move.
    SeveralTogether,
    /// Both machines move. But where one stands in more loops than the other, that one moves alone where its one way leaves a
    /// loop, or else the other one where its one way enters one.
    AlwaysTogether,
    /// As the first rule says, but no machine moves alone from the head of a loop to itself.
    LoopsTogether,
}

impl Rule {
    /// The rule that is tried after this one, the first one after the last.
    pub fn next(self) -> Rule {
        match self {
            Rule::AsksLessFirst => Rule::SeveralTogether,
            Rule::SeveralTogether => Rule::AlwaysTogether,
            Rule::AlwaysTogether => Rule::LoopsTogether,
            Rule::LoopsTogether => Rule::AsksLessFirst,
        }
    }
}
