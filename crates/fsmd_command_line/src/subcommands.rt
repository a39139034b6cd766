//! What a command line is built of.

/// An argument of a command.
#[derive(Clone, Copy)]
pub enum Argument<'a> {
    /// A word that names a file.
    File(&'a str),
    /// `A C B [C B ..]`, from 3 to 129 words.
    Files,
    /// `--cert F`.
    Cert,
    /// `--steps N`.
    Steps,
    /// `N`, the number of loops.
    Loops,
}

/// A command: its name, and its arguments in their order.
#[derive(Clone, Copy)]
pub struct Subcommand<'a> {
    pub name: &'a str,
    pub arguments: &'a [Argument<'a>],
}
