//! Why a program is refused.

ghost use Rattle.std.specs.Prelude.{◌≡◌};
ghost use Rattle.hls_program_text.specs.declared.fault.LangError.TheVariants as errors;

use fs_model::name::NoMemory;
use fs_rules::check::CheckFault;

/// The first fault in the text of a program, with its line and column from 1, and what is wrong there. It is told as that of
/// a machine's text is; `Nested` comes here alone.
pub use fs_grammar::fault::{TextFault as LangFault, TextKind as LangKind};

/// Why a program is refused.
#[derive(Clone, Copy)]
pub enum LangError {
    /// The bytes spell no program: they are faulty here.
    Text(LangFault),
    /// The parts of the program's machine break a rule.
    Check(CheckFault),
    /// Out of memory.
    NoMemory,
}

impl From<NoMemory> for LangError {
    ghost from_gives = { λ _ e. e ≡ errors.NoMemory };

    fn from(_refused: NoMemory) -> LangError {
        LangError::NoMemory
    }
}
