//! What a checker answers.

use cert_model::reason::Reason;

/// What a checker answers. Obligations are numbered from 1.
#[derive(Clone, Copy)]
pub enum Verdict {
    /// All obligations hold.
    Yes,
    /// All earlier obligations hold, and this one fails.
    No { obligation: u32, reason: Reason },
    /// All earlier obligations hold, and an operation of this one is not narrow.
    Wide { obligation: u32 },
    /// All earlier obligations hold, and an operation of this one is narrow and not small.
    Large { obligation: u32 },
}
