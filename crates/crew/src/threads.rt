//! Many writers and one reader, each on a thread of its own, on one direction of a pipe.
ghost use Rattle.std.specs.Prelude.{◌≡◌, ◌≢◌, ◌≤◌, ◌+◌, ◌↔◌, [], length, All, IfOk, IfErr, IsErrOf};
ghost use Rattle.std.specs.Prelude.{Err, IfNone, IsNone, IsOk, IsSome, OnOk};
ghost use Rattle.std.specs.Vec.{vec_capacity};
ghost use Rattle.sync_base.specs.declared.fault.Fault.TheVariants.{BadArg};
ghost use Rattle.pipe_dev.specs.Openings.{AreNewEnds, IsStartOf};
ghost use Rattle.crew.specs.Threads.{AreWithin, IsReportOf, WhyNotRun};
ghost use Rattle.crew.specs.Writing.{HasWrittenOn, HasEnded, IsReadyWriter};

use crate::crew::{Counted, Crew, HungWriter, Reader, Writer};
use crate::gate::Gate;
use crate::opts::{Report, is_within};
use pipe_dev::{Ends, Parts, Pipe, PipeStart};
use sleep_wakeup::{Kernel, Started};
use std::alloc::Global;
use std::sync::Wait;
use std::sync::atomic::AtomicBool;
use std::sync::atomic::Ordering::SeqCst;
use std::thread;
use std::thread::{JoinHandle, Scope, Threads};
use sync_base::{Fault, ThreadsOpts};

/// How many writes the pipe holds that no read has begun.
pub const LIMIT: u64 = 16;

const _: () = prove!(LIMIT == 16);

/// Runs `opts.writers` writers and one reader, each on a thread of its own, on one direction of a
/// pipe: each writer writes its messages, which are those of `message`, and the reader reads until
/// the end. It hangs the pipe up when all writers have returned, and reports what was read. It
/// waits.
///
/// Refuses first as `BadArg` outside the limits of `ThreadsOpts`, and else as `Memory`, or as
/// `Device` where a thread can't be started; then all others have been joined.
///
/// A read or a write that is refused for another reason than memory would be reported as `Device`
/// too: a note, or a hangup by somebody else. Nobody but the crew has the run's processes and ends.
pub fn run_threads<R: Threads + Wait + Sync, G: Gate + Sync>(
    alloc: Global,
    rt: &R,
    opts: ThreadsOpts,
    gate: &G,
) -> Result<Report, Fault>
    // Refused first, and nothing else is refused so.
    ensures bad_arg { IsErrOf result BadArg ↔ ¬ AreWithin opts }

    // No other refusal is known but for memory and a device.
    ensures fault { IfErr result (WhyNotRun opts) }

    // Otherwise it reports what was read.
    ensures report { IfOk result (IsReportOf opts) }
{
    if !is_within(&opts) {
        return Err(Fault::BadArg);
    }
    match run_within(alloc, rt, opts, gate) {
        Ok(report) => Ok(report),
        Err(Fault::Memory) => Err(Fault::Memory),
        Err(_) => Err(Fault::Device),
    }
}

// Makes the kernel, the pipe and the crew, and runs them.
fn run_within<R: Threads + Wait + Sync, G: Gate + Sync>(
    alloc: Global,
    rt: &R,
    opts: ThreadsOpts,
    gate: &G,
) -> Result<Report, Fault>
    requires { AreWithin opts }
    ensures { IfOk result (IsReportOf opts) }
{
    let rendez = 2 * (1 + opts.writers);
    let sleep_wakeup::Opened { kernel, start } = Kernel::new(alloc, opts.writers + 1, rendez)?;
    let Started { mut roster, proc } = kernel.start(start);
    let pipe_dev::Opened { pipe, start } = Pipe::new(alloc, &mut roster, LIMIT, opts.writers)?;
    let Parts { read, writes } = one_way(&pipe, start);
    let crew = Crew::new(alloc, &opts, roster, proc, read, writes)?;
    run_crew(alloc, rt, opts, gate, crew)
}

// Where what is written at the second end is read, and where it is written.
fn one_way<'p>(pipe: &'p Pipe, start: PipeStart<'p>) -> Parts<'p>
    requires start { IsStartOf pipe.now start }
    ensures ends { AreNewEnds pipe.entry.now.there start.entry.there.row result.read
        result.writes.items }
{
    let Ends { first, second } = pipe.ends(start);
    let Parts { read, writes: _ } = first.parts();
    let Parts { read: _, writes } = second.parts();
    Parts { read, writes }
}

// Runs each of the crew on a thread of its own, and joins them all.
fn run_crew<'p, R: Threads + Wait + Sync, G: Gate + Sync>(
    alloc: Global,
    rt: &R,
    opts: ThreadsOpts,
    gate: &G,
    crew: Crew<'p>,
) -> Result<Report, Fault>
    requires writers { All (IsReadyWriter opts) crew.writers.items }
    ensures report { IfOk result (IsReportOf opts) }
{
    let Crew { reader, writers } = crew;
    let called_off = AtomicBool::new(false);
    let off = &called_off;
    let counted = thread::scope(
        thread::scope_env(),
        rt,
        move |scope| -> Result<Counted, Fault> {
            run_started(scope, off, alloc, rt, gate, reader, writers)
        },
    )?;
    counted.report(&opts)
}

// Starts the reader and the writers, and joins them all.
fn run_started<'s, 'p: 's, 'q: 's, E, R: Threads + Wait + Sync, G: Gate + Sync>(
    scope: &Scope<'s, E>,
    off: &'s AtomicBool,
    alloc: Global,
    rt: &'s R,
    gate: &'s G,
    reader: Reader<'p>,
    writers: Vec<Writer<'q>>,
) -> Result<Counted<'p>, Fault> {
    let handles = Vec::with_capacity(alloc, writers.len())?;
    let Some(reading) = start_reader(scope, rt, reader) else {
        return Err(Fault::Device);
    };
    let running = start_writers(scope, off, alloc, rt, gate, writers, handles);
    join_all(rt, reading, running)
}

// Joins the writers, which lets the reader come to the end, and then the reader: what it counted.
fn join_all<'p, 'q, R: Threads>(
    rt: &R,
    reading: JoinHandle<Counted<'p>>,
    running: Running<'q>,
) -> Result<Counted<'p>, Fault>
    // A run that was called off is not good, nor is one whose reader did not come to the end.
    ensures started { OnOk result (IsNone running.entry.called_off) }
    ensures read { IfOk result (λ counted. IsOk counted.read) }
{
    let Running {
        handles,
        called_off,
    } = running;
    let Joined { wrote, gone } = join_writers(rt, handles);
    let counted = reading.join(rt);
    drop(gone);
    if called_off.is_some() {
        return Err(Fault::Device);
    }
    match first_fault(counted.read, wrote) {
        Ok(()) => Ok(counted),
        Err(fault) => Err(fault),
    }
}

// Starts the reader on a thread, if one can be started.
fn start_reader<'s, 'p: 's, E, R: Wait + Sync>(
    scope: &Scope<'s, E>,
    rt: &'s R,
    reader: Reader<'p>,
) -> Option<JoinHandle<Counted<'p>>> {
    match scope.spawn(move || reader.read_all(rt)) {
        Ok(reading) => Some(reading),
        Err(_) => None,
    }
}

// The writers that run on threads, and where one could not be started, that one, which has hung the
// pipe up: else writers that wait for room, and the reader, would wait for ever.
#[derive(Drop)]
struct Running<'p> {
    handles: Vec<JoinHandle<Writer<'p>>>,
    called_off: Option<HungWriter<'p>>,
}

// Starts each writer on a thread. Where one can't be started it hangs the pipe up, and the run is
// called off.
fn start_writers<'s, 'p: 's, E, R: Wait + Sync, G: Gate + Sync>(
    scope: &Scope<'s, E>,
    off: &'s AtomicBool,
    alloc: Global,
    rt: &'s R,
    gate: &'s G,
    writers: Vec<Writer<'p>>,
    handles: Vec<JoinHandle<Writer<'p>>>,
) -> Running<'p>
    requires room { length handles.items + length writers.items ≤ vec_capacity handles }

    // All run, or one that does not has hung the pipe up.
    ensures all { IfNone result.called_off
        (length result.handles.items
        ≡ length handles.entry.items + length writers.entry.items) }
{
    let mut handles = handles;
    for writer in writers {
        match scope.spawn(
            move || -> Writer
                ensures { HasWrittenOn writer.entry result }
            { write_unless(off, alloc, rt, gate, writer) },
        ) {
            Ok(handle) => handles.push_reserved(handle),
            Err(refused) => {
                off.store(true, SeqCst);
                return Running {
                    handles,
                    called_off: Some((refused.value)().hangup()),
                };
            }
        }
    }
    Running {
        handles,
        called_off: None,
    }
}

// Writes, unless the run is called off.
#[tactic(auto, using(crate::proofs::WritingLemmas::same_writer))]
fn write_unless<'p, R: Wait, G: Gate>(
    off: &AtomicBool,
    alloc: Global,
    rt: &R,
    gate: &G,
    writer: Writer<'p>,
) -> Writer<'p>
    ensures { HasWrittenOn writer.entry result }
{
    if off.load(SeqCst) {
        return writer;
    }
    writer.write_all(alloc, rt, gate)
}

// All writers have returned: why one of them wrote no more, and the one that hung the pipe up.
#[derive(Drop)]
struct Joined<'p> {
    wrote: Result<(), Fault>,
    gone: Option<HungWriter<'p>>,
}

// The first of two faults, where there is one.
fn first_fault(first: Result<(), Fault>, second: Result<(), Fault>) -> Result<(), Fault>
    ensures first { IfErr first (λ fault. result ≡ Err fault) }
    ensures second { OnOk first (result ≡ second) }
{
    match first {
        Ok(()) => second,
        Err(fault) => Err(fault),
    }
}

// Waits for all writers, and then hangs the pipe up.
fn join_writers<'p, R: Threads>(rt: &R, running: Vec<JoinHandle<Writer<'p>>>) -> Joined<'p>
    ensures hung { running.entry.items ≢ [] → IsSome result.gone }
{
    let mut running = running;
    let mut wrote = Ok(());
    let Some(last) = running.pop() else {
        return Joined { wrote, gone: None };
    };
    'joining: for handle in running {
        wrote = first_fault(wrote, handle.join(rt).wrote);
    }
    let last = last.join(rt);
    Joined {
        wrote: first_fault(wrote, last.wrote),
        gone: Some(last.hangup()),
    }
}
