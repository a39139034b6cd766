//! The command line.

ghost use Rattle.std.specs.Prelude.{◌≡◌, IfOk};
ghost use Rattle.clap.specs.Words.{app_of};
ghost use Rattle.fsmd_command_line.specs.CommandLine.{command_line};

use crate::building::command_line_of;
use crate::subcommands::Argument::{Cert, File, Files, Loops, Steps};
use crate::subcommands::Subcommand;
use clap::Command;
use std::alloc::{AllocError, Global};

const COMMANDS: [Subcommand<'static>; 12] = [
    Subcommand {
        name: "check",
        arguments: &[File("left"), File("right"), Cert, Steps],
    },
    Subcommand {
        name: "verify",
        arguments: &[File("left"), File("right"), File("certificate")],
    },
    Subcommand {
        name: "run",
        arguments: &[File("machine"), File("inputs"), Steps],
    },
    Subcommand {
        name: "replay",
        arguments: &[File("left"), File("right"), File("inputs"), Steps],
    },
    Subcommand {
        name: "fmt",
        arguments: &[File("machine")],
    },
    Subcommand {
        name: "cuts",
        arguments: &[File("machine")],
    },
    Subcommand {
        name: "generate",
        arguments: &[Loops],
    },
    Subcommand {
        name: "compile",
        arguments: &[File("program")],
    },
    Subcommand {
        name: "schedule",
        arguments: &[File("machine"), File("units")],
    },
    Subcommand {
        name: "bind",
        arguments: &[File("machine"), File("binding")],
    },
    Subcommand {
        name: "shrink",
        arguments: &[File("left"), File("right"), File("inputs"), Steps],
    },
    Subcommand {
        name: "chain",
        arguments: &[Files],
    },
];

/// The whole command line: the words after the program's name. The one refusal is out of memory.
pub fn command_line<'a>(alloc: Global) -> Result<Command<'a>, AllocError>
    ensures { IfOk result (λ command. app_of command ≡ command_line) }
{
    command_line_of(alloc, "fsmd", &COMMANDS)
}
