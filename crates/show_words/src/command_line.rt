//! The command line, built for `clap`.

ghost use Rattle.std.specs.Prelude.{◌≡◌, IfOk};
ghost use Rattle.clap.specs.Words.{app_of};
ghost use Rattle.show_words.specs.ViewCommandLine.{view_command_line};

use clap::Command;
use fsmd_command_line::building::command_line_of;
use fsmd_command_line::subcommands::Argument::{File, Steps};
use fsmd_command_line::subcommands::Subcommand;
use std::alloc::{AllocError, Global};

const COMMANDS: [Subcommand<'static>; 6] = [
    Subcommand {
        name: "machine",
        arguments: &[File("machine")],
    },
    Subcommand {
        name: "pair",
        arguments: &[File("left"), File("right")],
    },
    Subcommand {
        name: "why",
        arguments: &[File("left"), File("right")],
    },
    Subcommand {
        name: "certificate",
        arguments: &[File("left"), File("right"), File("certificate")],
    },
    Subcommand {
        name: "inputs",
        arguments: &[File("left"), File("right")],
    },
    Subcommand {
        name: "trace",
        arguments: &[File("machine"), File("inputs"), Steps],
    },
];

/// The whole command line: the words after the program's name.
pub fn command_line<'a>(alloc: Global) -> Result<Command<'a>, AllocError>
    ensures { IfOk result (λ command. app_of command ≡ view_command_line) }
{
    command_line_of(alloc, "fsmd_show", &COMMANDS)
}
