//! The program on its words: how each run that they ask for ends.
ghost use Rattle.std.specs.Prelude.{◌≡◌, ◌≤◌, ◌<◌, ◌+◌, None, map};
ghost use Rattle.std.specs.Prelude.{IfOk, IfSome, IsOk, OnErr};
ghost use Rattle.std.specs.Io.KnownBytes.{Appends, Keeps};
ghost use Rattle.scripts.specs.declared.script.TheConstants.{MAX_SCRIPT};
ghost use Rattle.scripts.specs.Device.{AppendsFront, TakesAtMost};
ghost use Rattle.crew.specs.declared.opts.Report.{Report};
ghost use Rattle.crew.specs.Threads.{IsReportOf};
ghost use Rattle.command_line.specs.CommandLine.{task_asked};
ghost use Rattle.commands.specs.Args.{
  status_of,
  status_of_threads,
  EndsTask,
  EndsThreads,
  ReadsNothing,
};
ghost use Rattle.commands.specs.ReportText.{report_line};

use crate::report_text::push_report;
use command_line::{NoTask, Task, task_of};
use crew::{OpenGate, run_threads};
use scripts::device::write_whole;
use scripts::{run_pipe, run_replay};
use std::alloc::Global;
use std::convert::AsStr;
use std::io::{Read, Write};
use std::sync::Wait;
use std::thread::Threads;
use sync_base::{Fault, ThreadsOpts};

/// The status of a run that went well.
pub const GOOD: u8 = 0;

/// The status of a run that ended in a fault.
pub const FAULT: u8 = 1;

/// The status of a refused command line, also where help was asked for.
pub const REFUSED: u8 = 2;

/// Each status, by its number.
pub fn numbers_of_the_program()
    ensures good { GOOD ≡ 0 }
    ensures fault { FAULT ≡ 1 }
    ensures refused { REFUSED ≡ 2 }
{}

/// The forms of the command line.
const USAGE: &str = "usage: p9sync pipe | replay | threads --writers W --writes K --size S";

/// The whole program on its words, its name first. It reads a script from `reader`, writes the
/// answers to `out`, and writes to `err` why it failed; a failed write to `err` changes nothing. It
/// returns the status: 0 where all went well, 1 for a fault, 2 for a refused command line.
pub fn run_args<T: Threads + Wait + Sync, S: AsStr, R: Read, O: Write, E: Write>(
    alloc: Global,
    rt: &T,
    words: &[S],
    reader: &mut R,
    out: &mut O,
    err: &mut E,
) -> u8
    ensures known { result ≤ REFUSED }

    // Only words that ask for no run are refused; they read no script, write no answer and never
    // end well.
    ensures refused { result ≡ REFUSED → task_asked (map S.text words.now) ≡ None }
    ensures not_good { task_asked (map S.text words.now) ≡ None → 0 < result }
    ensures unread { task_asked (map S.text words.now) ≡ None →
        Keeps (R.remaining reader.old) (R.remaining reader.new) }
    ensures unwritten { task_asked (map S.text words.now) ≡ None →
        Keeps (O.contents out.old) (O.contents out.new) }

    // Other words run what they ask for, and the status says how that ended.
    ensures at_most { TakesAtMost (MAX_SCRIPT + 1)
        (R.remaining reader.old) (R.remaining reader.new) }
    ensures runs { IfSome (task_asked (map S.text words.now)) (λ task.
        EndsTask task (R.remaining reader.old) (O.contents out.old) (O.contents out.new) result) }
    ensures no_script { IfSome (task_asked (map S.text words.now)) (λ task.
        ReadsNothing task → Keeps (R.remaining reader.old) (R.remaining reader.new)) }

    // A run that ends well says nothing else.
    ensures silent { result ≡ GOOD → Keeps (E.contents err.old) (E.contents err.new) }
{
    match task_of(alloc, words) {
        Ok(Task::Pipe) => end(run_pipe(alloc, reader, out), err),
        Ok(Task::Replay) => end(run_replay(alloc, reader, out), err),
        Ok(Task::Threads(opts)) => tell_threads(alloc, rt, opts, out, err),
        Err(NoTask::OutOfMemory) => end(Err(Fault::Memory), err),
        Err(NoTask::Refused) => refuse(err),
    }
}

/// Ends a command line that is no task.
pub fn refuse<E: Write>(err: &mut E) -> u8
    ensures { result ≡ REFUSED }
{
    let _ = writeln!(err, "{USAGE}");
    REFUSED
}

/// Ends a run.
pub fn end<E: Write>(outcome: Result<(), Fault>, err: &mut E) -> u8
    ensures status { result ≡ status_of outcome }
    ensures silent { IsOk outcome → Keeps (E.contents err.old) (E.contents err.new) }
{
    match outcome {
        Ok(()) => GOOD,
        Err(fault) => {
            let _ = writeln!(err, "p9sync: {fault}");
            FAULT
        }
    }
}

/// Runs writers and a reader, and writes what was read.
fn tell_threads<T: Threads + Wait + Sync, O: Write, E: Write>(
    alloc: Global,
    rt: &T,
    opts: ThreadsOpts,
    out: &mut O,
    err: &mut E,
) -> u8
    ensures ends { EndsThreads opts (O.contents out.old) (O.contents out.new) result }
    ensures silent { result ≡ GOOD → Keeps (E.contents err.old) (E.contents err.new) }
{
    end_threads(write_threads(alloc, rt, opts, out), err)
}

/// Ends a run on threads. A run out of order ends as a fault does, and `err` says nothing of it.
fn end_threads<E: Write>(outcome: Result<bool, Fault>, err: &mut E) -> u8
    ensures status { result ≡ status_of_threads outcome }
    ensures silent { IsOk outcome → Keeps (E.contents err.old) (E.contents err.new) }
{
    match outcome {
        Ok(true) => GOOD,
        Ok(false) => FAULT,
        Err(fault) => end(Err(fault), err),
    }
}

/// Runs writers and a reader, writes what was read, and returns whether it was in order.
fn write_threads<T: Threads + Wait + Sync, O: Write>(
    alloc: Global,
    rt: &T,
    opts: ThreadsOpts,
    out: &mut O,
) -> Result<bool, Fault>
    ensures good { IfOk result (λ good. (report : Report) × IsReportOf opts report
        × (report.in_order ≡ good)
        × Appends (O.contents out.old) (O.contents out.new) (report_line report)) }
    ensures failed { OnErr result ((report : Report) × IsReportOf opts report
        × AppendsFront (O.contents out.old) (O.contents out.new) (report_line report)) }
{
    let report = run_threads(alloc, rt, opts, &OpenGate)?;
    let mut text = Vec::new(alloc);
    push_report(&mut text, &report)?;
    write_whole(out, &text)?;
    Ok(report.in_order)
}
