//! The formats of machine texts.

ghost use Rattle.std.specs.Prelude.{◌≡◌};
ghost use Rattle.fs_grammar.specs.Formats.{format_of, format_number};

/// The format of a machine text, which the number after its first word says.
#[derive(Clone, Copy)]
pub enum Format {
    /// `fsmd 1;`: no ports are declared, and nothing is emitted.
    One,
    /// `fsmd 2;`: ports may be declared, and numbers emitted to them.
    Two,
}

impl Format {
    /// The format of a number. `None` where the number is neither 1 nor 2.
    pub fn of(number: i128) -> Option<Format>
        ensures { result ≡ format_of number }
    {
        match number {
            1 => Some(Format::One),
            2 => Some(Format::Two),
            _ => None,
        }
    }

    /// The number of the format, 1 or 2.
    pub fn number(self) -> i128
        ensures { result ≡ format_number self }
    {
        match self {
            Format::One => 1,
            Format::Two => 2,
        }
    }
}
