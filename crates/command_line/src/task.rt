//! What the words of a command line ask for.
ghost use Rattle.std.specs.Prelude.{◌≡◌, ◌↔◌, None, Some, map, IfErr, IfOk};
ghost use Rattle.clap.specs.Walk.{rows_of};
ghost use Rattle.clap.specs.Words.{found_of, kind_of};
ghost use Rattle.clap.specs.declared.error.kind.ErrorKind.TheVariants as kind;
ghost use Rattle.command_line.specs.CommandLine.{command_named, option_asked, opts_asked};
ghost use Rattle.command_line.specs.CommandLine.{task_asked};
ghost use Rattle.command_line.specs.declared.task.NoTask.TheVariants as why;

use crate::grammar::{SIZE, WRITERS, WRITES, command};
use clap::error::ErrorKind;
use clap::{ArgMatches, Error};
use std::alloc::{AllocError, Global};
use std::convert::AsStr;
use sync_base::ThreadsOpts;

/// What a command line asks for.
#[derive(Clone, Copy)]
pub enum Task {
    Pipe,
    Replay,
    Threads(ThreadsOpts),
}

/// Why a command line is no task.
#[derive(Drop)]
pub enum NoTask {
    Refused,
    OutOfMemory,
}

/// What these words ask for.
pub fn task_of<S: AsStr>(alloc: Global, words: &[S]) -> Result<Task, NoTask>
    ensures task { IfOk result (λ task. task_asked (map S.text words.now) ≡ Some task) }
    ensures refused { IfErr result (λ no_task.
        no_task ≡ why.Refused → task_asked (map S.text words.now) ≡ None) }
{
    let command = command(alloc)?;
    let matches = command.try_get_matches_from(words)?;
    match matches.subcommand() {
        Some((name, given)) => parse_task(name, given).ok_or(NoTask::Refused),
        None => Err(NoTask::Refused),
    }
}

/// The run that a word names.
fn parse_task(word: &str, given: &ArgMatches<'_>) -> Option<Task>
    ensures { result ≡ command_named word.now (rows_of (found_of given.now)) }
{
    match word {
        "pipe" => Some(Task::Pipe),
        "replay" => Some(Task::Replay),
        "threads" => Some(Task::Threads(parse_opts(given)?)),
        _ => None,
    }
}

/// What the options of `threads` ask for.
fn parse_opts(given: &ArgMatches<'_>) -> Option<ThreadsOpts>
    ensures { result ≡ opts_asked (rows_of (found_of given.now)) }
{
    Some(ThreadsOpts {
        writers: parse_number(given, WRITERS)?,
        writes: parse_number(given, WRITES)?,
        size: parse_number(given, SIZE)?,
    })
}

/// The number that was given for an option.
fn parse_number(given: &ArgMatches<'_>, name: &str) -> Option<u64>
    ensures { result ≡ option_asked name.now (rows_of (found_of given.now)) }
{
    given.get_one::<u64>(name)
}

impl From<AllocError> for NoTask {
    ghost from_gives = { λ _ no_task. no_task ≡ why.OutOfMemory };

    fn from(_refused: AllocError) -> NoTask {
        NoTask::OutOfMemory
    }
}

impl From<Error> for NoTask {
    ghost from_gives = { λ error no_task.
        (no_task ≡ why.OutOfMemory) ↔ (kind_of error ≡ kind.OutOfMemory) };

    fn from(error: Error) -> NoTask {
        match error.kind() {
            ErrorKind::OutOfMemory => NoTask::OutOfMemory,
            _ => NoTask::Refused,
        }
    }
}
