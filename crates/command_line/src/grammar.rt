//! The grammar of the command line, for `clap`.
ghost use Rattle.std.specs.Prelude.{◌≡◌, IfOk, false};
ghost use Rattle.clap.specs.Simple.{app_of, shape_of};
ghost use Rattle.clap.specs.Walk.{rule_of};
ghost use Rattle.clap.specs.declared.builder.command.Command.TheViews.{out-Command};
ghost use Rattle.command_line.specs.CommandLine.{command_line, number_between, threads_command};

use clap::builder::ValueParser;
use clap::{Arg, ArgAction, Command};
use std::alloc::{AllocError, Global};
use sync_base::limits::{LEAST_SIZE, MAX_WRITERS, MAX_WRITES, MOST_SIZE};

/// The options of `threads`.
pub const WRITERS: &str = "writers";

pub const WRITES: &str = "writes";

pub const SIZE: &str = "size";

/// The grammar of the command line. Help and a version are not part of it.
pub fn command<'a>(alloc: Global) -> Result<Command<'a>, AllocError>
    ensures { IfOk result (λ command. app_of command ≡ command_line) }
{
    let threads = threads_command(alloc)?;
    Command::new(alloc, "p9sync")
        .disable_help_flag(true)
        .disable_help_subcommand(true)
        .disable_version_flag(true)
        .subcommand_required(true)
        .subcommand(Command::new(alloc, "pipe").disable_help_flag(true))?
        .subcommand(Command::new(alloc, "replay").disable_help_flag(true))?
        .subcommand(threads)
}

/// The command `threads` with its options.
fn threads_command<'a>(alloc: Global) -> Result<Command<'a>, AllocError>
    ensures shape { IfOk result (λ command. shape_of command ≡ threads_command) }
    ensures local { IfOk result (λ command. (out-Command command).has_globals ≡ false) }
{
    let writers = number_option(alloc, WRITERS, 1, MAX_WRITERS);
    let writes = number_option(alloc, WRITES, 1, MAX_WRITES);
    let size = number_option(alloc, SIZE, LEAST_SIZE, MOST_SIZE);
    Command::new(alloc, "threads")
        .disable_help_flag(true)
        .arg(writers)?
        .arg(writes)?
        .arg(size)
}

/// An option that has to be given once, with a number within these bounds.
fn number_option<'a>(alloc: Global, name: &'a str, least: u64, most: u64) -> Arg<'a>
    ensures rule { rule_of result ≡ number_between least most name.entry.now }
    ensures local { result.global ≡ false }
{
    Arg::new(alloc, name)
        .long(name)
        .required(true)
        .action(ArgAction::Set)
        .value_parser(ValueParser::Unsigned(least, most))
}
