//! By what cases are told apart.

/// Of which locals numbers tell cases apart.
#[derive(Clone, Copy, PartialEq, Eq)]
pub enum Numbers {
    /// Of none.
    None,
    /// Of flags.
    Flags,
    /// Of all.
    Locals,
}

/// By what cases are told apart: by known conditions over inputs or not, by known numbers of locals, and by so many last moves.
#[derive(Clone, Copy)]
pub struct CaseKind {
    pub conditions: bool,
    pub numbers: Numbers,
    pub way: usize,
}

impl CaseKind {
    /// By nothing: all arrivals are one case.
    pub fn none() -> CaseKind {
        CaseKind {
            conditions: false,
            numbers: Numbers::None,
            way: 0,
        }
    }

    /// Whether all arrivals are one case.
    pub fn is_none(self) -> bool {
        !self.conditions && self.numbers == Numbers::None && self.way == 0
    }
}
