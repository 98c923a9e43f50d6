//! A run: a script is read whole, its lines are answered, and the answers are written.
ghost use Rattle.scripts.specs.Device.{Runs};
ghost use Rattle.scripts.specs.PipeScript.{pipe_told};
ghost use Rattle.scripts.specs.Schedule.{schedule_told};
ghost use Rattle.scripts.specs.Script.{told};

use crate::device::read_script;
use crate::pipe_script::PipeScript;
use crate::schedule::Schedule;
use crate::script::{MAX_SCRIPT, Script, tell};
use std::alloc::Global;
use std::io::{Read, Write};
use sync_base::Fault;

/// Runs a pipe script: reads it whole, and then writes the answers to its lines. p9sync(1) has the
/// lines with their answers, and `docs/SCRIPTS.md` the rest of the format.
///
/// Device: the reader failed, and nothing was written; or the writer failed, after a prefix of the
/// answers was written. Memory: the same. Script: the line with that number is not in the grammar,
/// and the answers to the lines before it were written.
pub fn run_pipe<R: Read, W: Write>(
    alloc: Global,
    reader: &mut R,
    writer: &mut W,
) -> Result<(), Fault>
    ensures { Runs pipe_told (record {
      unread = R.remaining reader.old;
      left = R.remaining reader.new;
      held = W.contents writer.old;
      written = W.contents writer.new;
    }) result }
{
    run_script::<PipeScript, R, W>(alloc, reader, writer)
}

/// Runs a schedule: reads it whole, and then writes the answers to its events and whether a wakeup
/// was lost. p9sync(1) has the lines with their answers, and `docs/SCRIPTS.md` the rest of the
/// format.
///
/// Device: the reader failed, and nothing was written; or the writer failed, after a prefix of the
/// answers was written. Memory: the same. Script: the line with that number is not in the grammar,
/// and the answers to the lines before it were written, and no last line.
pub fn run_replay<R: Read, W: Write>(
    alloc: Global,
    reader: &mut R,
    writer: &mut W,
) -> Result<(), Fault>
    ensures { Runs schedule_told (record {
      unread = R.remaining reader.old;
      left = R.remaining reader.new;
      held = W.contents writer.old;
      written = W.contents writer.new;
    }) result }
{
    run_script::<Schedule, R, W>(alloc, reader, writer)
}

/// Runs a script of any language: reads it whole, and then writes the answers to its lines. What it
/// writes is what the script says, up to its first line that is not in the grammar.
///
/// Device: the reader failed, and nothing was written; or the writer failed, after a prefix of the
/// answers was written. Memory: the same. Script: the line with that number is not in the grammar.
pub fn run_script<S: Script, R: Read, W: Write>(
    alloc: Global,
    reader: &mut R,
    writer: &mut W,
) -> Result<(), Fault>
    ensures { Runs (told S.language) (record {
      unread = R.remaining reader.old;
      left = R.remaining reader.new;
      held = W.contents writer.old;
      written = W.contents writer.new;
    }) result }
{
    let input = read_script(alloc, reader)?;
    let text = &input[..input.len().min(MAX_SCRIPT)];
    match tell::<S, W>(alloc, text, input.len() > MAX_SCRIPT, writer)? {
        None => Ok(()),
        Some(line) => Err(Fault::Script(line)),
    }
}
