//! A command line of its subcommands, built for `clap`.

ghost use Rattle.std.specs.Prelude.{◌≡◌, IfOk, false, map};
ghost use Rattle.clap.specs.Words.{app_of, rule_of, shape_of};
ghost use Rattle.clap.specs.declared.builder.command.Command.TheViews.{out-Command};
ghost use Rattle.fsmd_command_line.specs.CommandLine.{alone, command_with};
ghost use Rattle.fsmd_command_line.specs.SubcommandShapes.{app_of_subcommands, program_named, rule_of_argument};

use crate::subcommands::{Argument, Subcommand};
use clap::{Arg, Command, value_parser};
use std::alloc::{AllocError, Global};

// An argument as `clap` has it.
fn argument_of<'a>(alloc: Global, argument: Argument<'a>) -> Arg<'a>
    ensures rule { rule_of result ≡ rule_of_argument argument.entry }
    ensures local { result.global ≡ false }
{
    match argument {
        Argument::File(id) => Arg::new(alloc, id).required(true),
        Argument::Files => Arg::new(alloc, "files").required(true).num_args(3..=129),
        Argument::Cert => Arg::new(alloc, "cert").long("cert"),
        Argument::Steps => Arg::new(alloc, "steps")
            .long("steps")
            .value_parser(value_parser!(u64).range(1..=100_000))
            .default_value("10000"),
        Argument::Loops => Arg::new(alloc, "loops")
            .required(true)
            .value_parser(value_parser!(u32).range(1..=300)),
    }
}

// A command with these arguments.
fn command_of<'a>(
    alloc: Global,
    name: &'a str,
    arguments: &[Argument<'a>],
) -> Result<Command<'a>, AllocError>
    ensures shape { IfOk result (λ command. shape_of command ≡ command_with name.entry.now (map rule_of_argument arguments.now)) }
    ensures local { IfOk result (λ command. (out-Command command).has_globals ≡ false) }
{
    let mut command = Command::new(alloc, name);
    for argument in arguments {
        command = command.arg(argument_of(alloc, *argument))?;
    }
    Ok(command)
}

// The command line before its subcommands are added.
fn program<'a>(alloc: Global, name: &'a str) -> Command<'a>
    ensures { app_of result ≡ alone (program_named name.entry.now) }
{
    Command::new(alloc, name)
        .no_binary_name(true)
        .disable_help_subcommand(true)
        .subcommand_required(true)
}

/// The command line with these subcommands: the words after the program's name. The one refusal is out of memory.
pub fn command_line_of<'a>(
    alloc: Global,
    name: &'a str,
    subcommands: &[Subcommand<'a>],
) -> Result<Command<'a>, AllocError>
    ensures { IfOk result (λ line. app_of line ≡ app_of_subcommands name.entry.now subcommands.now) }
{
    let mut line = program(alloc, name);
    for subcommand in subcommands {
        let command = command_of(alloc, subcommand.name, subcommand.arguments)?;
        line = line.subcommand(command)?;
    }
    Ok(line)
}
